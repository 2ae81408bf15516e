//! How answers are printed.

/// How answers are printed.
#[derive(Clone, Copy, Debug, PartialEq, Eq)]
pub struct Style<'a> {
    pub form: AnswerForm,
    /// Of a path the last component alone.
    pub basenames: bool,
    /// The name of the section that is asked of, where the user gave one. Objects of JSON have it.
    pub section: Option<&'a str>,
}

/// What the line of an address says.
#[derive(Clone, Copy, Debug, PartialEq, Eq)]
pub enum AnswerForm {
    /// Its location.
    Location,
    /// The address as it was given, and its location.
    AddressAndLocation,
    /// A JSON object: the address as it was given, the section that is asked of, where it is named,
    /// and of the row that answers the path, the line, the column, the discriminator, whether it is a statement, and the offset of its unit.
    Json,
}
