// What becomes of a creation. The answer stands apart from the code, so that the definition by which that
// promises can name it.
use rules::Hold;

// The slot whose patch the change joins; or an entry of its own: hard, or soft with its room. None: it
// would be soft, and no room is free.
#[derive(Clone, Copy, Debug, PartialEq, Eq)]
pub enum Entry {
    Joins(usize),
    Own(Option<Hold>),
}
