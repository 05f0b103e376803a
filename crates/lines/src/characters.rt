// The characters that a line of text knows by name, and those that end it.
ghost use Rattle.std.specs.Prelude.{◌≡◌};
ghost use Rattle.lines.specs.TextBytes.{is_terminator};

pub const NUL: u8 = 0;

pub const TAB: u8 = 9;

pub const LINE_FEED: u8 = 10;

pub const VERTICAL_TAB: u8 = 11;

pub const FORM_FEED: u8 = 12;

pub const RUBOUT: u8 = 127;

pub fn is_terminator(character: u8) -> bool
    ensures { result ≡ is_terminator character }
{
    if character == LINE_FEED {
        return true;
    }
    if character == VERTICAL_TAB {
        return true;
    }
    character == FORM_FEED
}
