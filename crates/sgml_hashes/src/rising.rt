// Numbers that rise.
ghost use Rattle.std.specs.Prelude.{◌≡◌};
ghost use Rattle.sgml_hashes.specs.Hashes.{rises};

// Whether each number is greater than the one before it.
pub(crate) fn is_rising(numbers: &[u64]) -> bool
    ensures { result ≡ rises numbers.now }
{
    let [first, rest @ ..] = numbers else {
        return true;
    };
    let mut last = *first;
    let mut rest = rest;
    'numbers: while let [number, after @ ..] = rest {
        if last >= *number {
            return false;
        }
        last = *number;
        rest = after;
    }
    true
}
