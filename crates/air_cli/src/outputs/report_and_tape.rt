//! What a command made, before it is printed and written.

ghost use Rattle.std.specs.Prelude.{◌≡◌};
ghost use Rattle.air_cli.specs.ReportsAndTapes.{given_status};

use air_report::Status;
use air_sender::TapeMast;
use std::marker::Model;

/// The text that a command prints, the tape that it writes if the words name an output, and whether the text says that something differs.
#[derive(Drop)]
pub struct ReportAndTape {
    pub text: Vec<u8>,
    pub tape: Option<TapeMast>,
    pub differs: bool,
}

impl Model for ReportAndTape {
    ghost use Rattle.air_cli.specs.ReportsAndTapes.{ReportAndTape};
    ghost use Rattle.air_cli.specs.SentTapes.{tape_sent};

    ghost Value = { ReportAndTape };

    ghost view = { λ g. record { text = g.text.items; tape = tape_sent g.tape; differs = g.differs } };
}

impl ReportAndTape {
    /// The text.
    pub fn text(&self) -> &[u8]
        ensures { result.now ≡ self.now.text }
    {
        &self.text
    }

    /// The tape; empty if there is none.
    pub fn tape(&self) -> &[u8]
        ensures { result.now ≡ self.now.tape }
    {
        match &self.tape {
            Some(mast) => mast.tape(),
            None => &[],
        }
    }

    /// The status with which the command ends if all of it is delivered.
    pub fn status(&self) -> Status
        ensures { result ≡ given_status self.now.differs }
    {
        if self.differs {
            Status::Differs
        } else {
            Status::Ok
        }
    }
}
