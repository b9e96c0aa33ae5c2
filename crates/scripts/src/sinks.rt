//! Where the pieces of a tape go: a sink takes them, one after another, into an output.

ghost use Rattle.std.specs.Prelude.{◌++◌, ℕ, List, IfErr, OnOk, ⊤};

use air_base::NoMemory;

/// Takes the pieces of a tape, one after another, into an output.
pub trait PieceSink<P> {
    /// Why a piece isn't taken, or that memory ran out.
    type Fault: From<NoMemory>;

    /// Just these bytes were taken since the output was as at first.
    ghost HasTaken: { Self → List ℕ → P → P → Type 0 };

    /// A beginning of these bytes was taken since the output was as at first, and then the sink failed.
    ghost HasFailed: { Self → List ℕ → P → P → Self.Fault → Type 0 };

    /// Takes the next piece, after those before.
    fn take(&self, output: &mut P, piece: &[u8]) -> Result<(), Self::Fault>
        ensures taken { (first : P) (so_far : List ℕ) → HasTaken self.now so_far first output.old →
            OnOk result (HasTaken self.now (so_far ++ piece.now) first output.new) }
        ensures failed { (first : P) (so_far rest : List ℕ) → HasTaken self.now so_far first output.old →
            IfErr result (HasFailed self.now ((so_far ++ piece.now) ++ rest) first output.new) };
}

/// Takes every piece, and keeps none.
#[derive(Clone, Copy, Debug, PartialEq, Eq)]
pub struct Discard;

impl PieceSink<()> for Discard {
    type Fault = NoMemory;

    ghost HasTaken = { λ _ _ _ _. ⊤ };

    ghost HasFailed = { λ _ _ _ _ _. ⊥ };

    fn take(&self, _output: &mut (), _piece: &[u8]) -> Result<(), NoMemory> {
        Ok(())
    }
}
