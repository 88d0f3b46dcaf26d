// Laws of settings.
ghost use Rattle.std.specs.Prelude.{◌≡◌, ℕ, List, Option, Result};
ghost use Rattle.sgml_source.specs.Inputs.{Files};
ghost use Rattle.sgml_settings.specs.declared.bad_file.BadFile.{BadFile as BadFile_};
ghost use Rattle.sgml_settings.specs.declared.setting.Settings.{Settings as Settings_};
ghost use Rattle.sgml_settings.specs.Setting.{Sets};

/// A law: over the files of a store a run is set in one way, or one file can't be read, at one place, for one reason.
pub fn one_setting()
    ensures { (files : Files) (catalog : Option (List ℕ)) (one other : Result Settings_ BadFile_) →
        Sets files catalog one → Sets files catalog other → one ≡ other }
{}

/// A law: over the files of a store each run is set, or has a file that can't be read, at a place, for a reason.
pub fn each_run_is_set()
    ensures { (files : Files) (catalog : Option (List ℕ)) → (set : Result Settings_ BadFile_) × Sets files catalog set }
{}
