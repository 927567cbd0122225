//! Theorems about the definitions, each the contract of a function that does nothing.
ghost use Rattle.nvm_list.specs.FirstFault.{FaultsAreFirst};
ghost use Rattle.nvm_list.specs.SaidCommands.{ListsSayTheirCommands};

/// A list has a fault exactly where a line is the first that is no command: those before it are read, and
/// it isn't, after them. The fault has its number, counted from 1, and what was expected there.
pub fn faults_are_first()
    ensures { FaultsAreFirst }
{}

/// What a list says, line by line as [`next_said`](crate::next_said) gives it, is what it says of its commands, one after the other:
/// as many lines have words as there are commands, the k-th of them is the one of which the k-th command is read, and what it says
/// reads as that command by itself.
pub fn lists_say_their_commands()
    ensures { ListsSayTheirCommands }
{}
