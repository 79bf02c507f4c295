//! What the rules promise of each command that nothing refuses: a law, the contract of a function
//! that does nothing.

ghost use Rattle.std.specs.Prelude.{ℕ, List};
ghost use Rattle.gm_state.specs.World.{World, Sound};
ghost use Rattle.gm_commands.specs.declared.command.Command.{Command};
ghost use Rattle.gm_refusals.specs.Applies.{IsGood};
ghost use Rattle.gm_rules.specs.Step.{CanAnswer, HasPlan};
ghost use Rattle.gm_refusals.specs.WorldFacts.{seen_of};

/// Each command that nothing refuses has a step, and its intents carry it out.
pub fn every_command_has_a_plan()
    ensures { (u : World) (key : List ℕ) (c : Command) → Sound u → CanAnswer u key c
        → IsGood u.state (seen_of u) c → HasPlan u key c }
{}
