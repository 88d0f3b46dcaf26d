ghost use Rattle.std.specs.Prelude.{◌≡◌, option_map};
ghost use Rattle.sgml_ambiguity.specs.Scan.{token_view, pair_view, differing};

use crate::token::Token;

/// The token and that of its name with this number, unless they are one.
pub fn differing<'a>(a: Token<'a>, number: Option<u32>) -> Option<(Token<'a>, Token<'a>)>
    ensures { option_map pair_view result ≡ differing (token_view a.entry) number }
{
    match number {
        None => None,
        Some(number) => {
            if a.number == number {
                None
            } else {
                Some((
                    a,
                    Token {
                        number,
                        name: a.name,
                    },
                ))
            }
        }
    }
}
