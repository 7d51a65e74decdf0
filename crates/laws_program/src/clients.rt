//! Two runs of `client` over the same bytes print the same. The functions do nothing: their
//! contracts are the laws.

ghost use Rattle.cli_client.specs.Client.{client_says};
ghost use Rattle.cli_shell.specs.Determined.{OneStatus, OneText};
ghost use Rattle.laws_program.specs.Clients.Making.{MakesOneThing};

use cli_shell::sink::Sink;

/// Of two runs of `client` over the same bytes, neither of which had a fault or ran out of memory,
/// the statuses are the same, and so is what was written.
pub fn clients_are_determined<K: Sink>()
    ensures status { OneStatus K.view client_says }
    ensures text { OneText K.view client_says }
{}

/// `make` says one thing of a count and a seed.
pub fn makes_are_determined()
    ensures { MakesOneThing }
{}
