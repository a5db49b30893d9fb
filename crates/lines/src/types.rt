// What a line of the replay says. The types stand apart from the code, so that the definition by which
// that promises can name them.
use rules::Hold;

// The word of a record, or of what is no record.
#[derive(Clone, Copy, Debug, PartialEq, Eq)]
pub enum Word {
    Open,
    Create,
    Write,
    Complete,
    Cut,
    Bad,
}

// What a granted write or create adds: how many patches went; the patch's number, and hard or soft. Three
// cases, and so no Option. A patch's number and hold stand apart, as the line says them: `Created` is what the call
// answers.
#[derive(Clone, Copy, Debug, PartialEq, Eq)]
pub enum More {
    Nothing,
    Patches(u32),
    Patch(u32, Hold),
}

// One line: the record's place in the trace, its word, the answer's number, and more.
#[derive(Clone, Copy, Debug, PartialEq, Eq)]
pub struct Line {
    pub place: u64,
    pub word: Word,
    pub number: u64,
    pub more: More,
}
