//! What holds of the words of every command: a law, the contract of a function that does nothing.

ghost use Rattle.std.specs.Prelude.{◌≡◌, Some};
ghost use Rattle.gm_commands.specs.declared.command.Command.{Command};
ghost use Rattle.gm_commands.specs.Commands.{CommandFits, words};
ghost use Rattle.gm_words.specs.Spelling.{HasNoFlags, guarded_words, spelled};

/// The canonical words of a command spell it, if no name of it begins with a hyphen. Whatever
/// its names are, so do the words with `--` before the names that stand by their places, and
/// `--prov=` before the provider of a preference.
pub fn canonical_words()
    ensures plain { (c : Command) → CommandFits c → HasNoFlags c → spelled (words c) ≡ Some c }
    ensures guarded { (c : Command) → CommandFits c → spelled (guarded_words c) ≡ Some c }
{}
