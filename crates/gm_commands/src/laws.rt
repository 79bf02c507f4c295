//! What holds of all commands: a law, the contract of a function that does nothing.

ghost use Rattle.std.specs.Prelude.{◌≡◌};
ghost use Rattle.gm_commands.specs.declared.command.Command.{Command};
ghost use Rattle.gm_commands.specs.Commands.{CommandFits, words_of};

/// Two commands have equal words only if they are one command.
pub fn one_command()
    ensures { (a b : Command) → CommandFits a → CommandFits b → words_of a ≡ words_of b → a ≡ b }
{}
