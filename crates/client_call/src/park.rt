//! Park: the caller may wait.
ghost use Rattle.std.specs.Prelude.{◌≡◌, [], ◌∷◌};
ghost use Rattle.smithy_types.specs.Chain.{Chained};
ghost use Rattle.outside.specs.Calls.{Park};

use outside::Outside;
use run_grammar::Answer;

/// Lets the outside wait, once.
pub fn park<X: Outside>(outside: &mut X) -> Answer
    ensures answer { result ≡ Answer.Parked }
    ensures calls { Chained X.makes outside.old (Park ∷ []) outside.new }
{
    outside.park();
    Answer::Parked
}
