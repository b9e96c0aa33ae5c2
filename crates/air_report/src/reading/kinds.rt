//! The kinds of fault that a report can have.

ghost use Rattle.std.specs.Prelude.{◌≡◌};
ghost use Rattle.air_report.specs.Kinds.{report_kind_number};

/// A kind of fault, with its number. If several apply to a record, the one with the least number is answered.
#[derive(Clone, Copy, Debug, PartialEq, Eq)]
pub enum ReportFaultKind {
    /// The tag has another number of fields.
    Fields,
    /// A field, or a part of a list, isn't of its form, or a number is above its type's range.
    Form,
    /// The tag is unknown.
    Tag,
    /// A line of a later section is before it.
    Order,
    /// A commit isn't its updater's next.
    Update,
    /// A reader, a query, an attempt or a monitor isn't the deck's, or the items don't follow the query.
    Deck,
    /// A cycle that it names hasn't begun before it.
    Cycle,
}

impl ReportFaultKind {
    /// The number of the kind, from 1.
    pub fn code(self) -> u8
        ensures { result ≡ report_kind_number self }
    {
        match self {
            ReportFaultKind::Fields => 1,
            ReportFaultKind::Form => 2,
            ReportFaultKind::Tag => 3,
            ReportFaultKind::Order => 4,
            ReportFaultKind::Update => 5,
            ReportFaultKind::Deck => 6,
            ReportFaultKind::Cycle => 7,
        }
    }
}
