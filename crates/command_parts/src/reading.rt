// What is read: the numbers of a part, if it stands there, and the place behind it.
use command_cursor::Cursor;

// The numbers of a part that may be absent, and the place behind it.
#[derive(Clone, Copy)]
pub struct ReadAt<P> {
    pub part: Option<P>,
    pub next: Cursor,
}

#[derive(Clone, Copy, Default)]
pub struct DeviceNumbers {
    pub word: usize,
    pub unit: usize,
}

// A file's name, and the word of its extension, if it has one.
#[derive(Clone, Copy, Default)]
pub struct FileNumbers {
    pub name1: usize,
    pub name2: usize,
    pub extension: Option<usize>,
}

#[derive(Clone, Copy, Default)]
pub struct UicNumbers {
    pub group: usize,
    pub user: usize,
}
