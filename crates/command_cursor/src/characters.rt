// The characters that stand between the parts of a line.
pub const COMMA: u8 = b',';

pub const PERIOD: u8 = b'.';

pub const SLASH: u8 = b'/';

pub const COLON: u8 = b':';

// Before the input side.
pub const LESS_THAN: u8 = b'<';

pub const OPENING: u8 = b'[';

pub const CLOSING: u8 = b']';
