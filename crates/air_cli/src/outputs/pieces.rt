//! An output that is written piece by piece: it is begun, and then each piece is added after those before.

ghost use Rattle.std.specs.Prelude.{◌≡◌, ◌++◌, false, [], ℕ, List, IfErr, IfOk, OnErr, OnOk, Option, option_map};
ghost use Rattle.air_devices.specs.Shelves.{ShelfState};
ghost use Rattle.air_report.specs.declared.status.Status.TheVariants as status;
ghost use Rattle.air_cli.specs.Private.OutputPieces.{EndsPieces, IsCutOff, IsStopped, IsWritten};
ghost use Rattle.air_cli.specs.ReportsAndTapes.{ReportAndTape};

use air_devices::{Failed, Shelf};
use air_report::Status;
use scripts::PieceSink;

/// Makes the output of this name empty, if one is named.
pub fn begin_output<S: Shelf>(shelf: &mut S, output: Option<&str>) -> Result<(), Failed>
    ensures begun { OnOk result (IsWritten (option_map (λ name. name.now) output.entry) [] (S.state shelf.old) (S.state shelf.new)) }
    ensures cut { (tape : List ℕ) → OnErr result (IsCutOff (option_map (λ name. name.now) output.entry) tape (S.state shelf.old) (S.state shelf.new)) }
{
    match output {
        Some(name) => shelf.create(name),
        None => Ok(()),
    }
}

/// Adds a piece to the output of this name, if one is named. Compared with the moment when the output was begun: if it held the pieces before, it
/// then holds this piece after them. If the write fails, it is as it was at that moment, or holds the first bytes of every tape that begins with
/// these pieces.
///
/// The shelf is given the name anew for each piece. Over real files no output is told, and each piece goes to the file that has the name at that
/// time. If the output was renamed or replaced between two pieces, the later ones go to what took its place, and no answer says so. If nothing has
/// the name any more, or a file that was read has it, the piece fails.
pub fn append_piece<S: Shelf>(
    shelf: &mut S,
    output: Option<&str>,
    piece: &[u8],
) -> Result<(), Failed>
    ensures added { (first : ShelfState) (so_far : List ℕ) → IsWritten (option_map (λ name. name.now) output.entry) so_far first (S.state shelf.old) →
        OnOk result (IsWritten (option_map (λ name. name.now) output.entry) (so_far ++ piece.now) first (S.state shelf.new)) }
    ensures cut { (first : ShelfState) (so_far rest : List ℕ) → IsWritten (option_map (λ name. name.now) output.entry) so_far first (S.state shelf.old) →
        OnErr result (IsCutOff (option_map (λ name. name.now) output.entry) ((so_far ++ piece.now) ++ rest) first (S.state shelf.new)) }
{
    match output {
        Some(name) => shelf.append(name, piece),
        None => Ok(()),
    }
}

/// Prints the text of a command whose output was written piece by piece. If not all of it was written, nothing is printed, and the status says why.
pub(crate) fn print_written<S: Shelf>(shelf: &mut S, written: Result<Vec<u8>, Status>) -> Status
    ensures { (output : Option (List ℕ)) (given : ReportAndTape) (first : ShelfState) → given.differs ≡ false →
        IfOk written (λ text. text.items ≡ given.text) → OnOk written (IsWritten output given.tape first (S.state shelf.old)) →
        IfErr written (IsStopped output given.tape first (S.state shelf.old)) → EndsPieces output given first (S.state shelf.new) result }
{
    match written {
        Ok(text) => match shelf.print(&text) {
            Ok(()) => Status::Ok,
            Err(_) => Status::WriteFault,
        },
        Err(status) => status,
    }
}

/// The output of this name on a shelf, if one is named. The pieces of a script's tape are added to it.
#[derive(Clone, Copy, Debug)]
pub struct NamedOutput<'a> {
    pub name: Option<&'a str>,
}

impl<S: Shelf> PieceSink<S> for NamedOutput<'_> {
    type Fault = Status;

    ghost HasTaken = { λ output bytes first now. IsWritten (option_map (λ name. name.now) output.name) bytes (S.state first) (S.state now) };

    ghost HasFailed = { λ output bytes first now fault. (fault ≡ status.WriteFault) × IsCutOff (option_map (λ name. name.now) output.name) bytes (S.state first) (S.state now) };

    fn take(&self, shelf: &mut S, piece: &[u8]) -> Result<(), Status> {
        match append_piece(shelf, self.name, piece) {
            Ok(()) => Ok(()),
            Err(_) => Err(Status::WriteFault),
        }
    }
}
