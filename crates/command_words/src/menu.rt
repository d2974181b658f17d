ghost use Rattle.std.specs.Prelude.{◌≡◌};
ghost use Rattle.command_words.specs.Commands.{menu_of};

use arrayvec::ArrayVec;

/// The most bytes that a menu's text may have.
pub const MAX_MENU: usize = 64;

/// The text of the menu of this viewer on this text, each by its number, as it stands before the menu's row
/// cuts it: what a click in that row looks at. It takes no memory.
///
/// It is after the menus of Project Oberon, chapter 4.
pub fn menu_text(viewer: u32, text: u16) -> ArrayVec<u8, MAX_MENU>
    ensures { result.items ≡ menu_of viewer text }
{
    let mut bytes = ArrayVec::new();
    bytes.push(b'V');
    let _ = bytes.try_extend_from_slice(itoa::Buffer::new().format(viewer).as_bytes());
    let _ = bytes.try_extend_from_slice(b" T");
    let _ = bytes.try_extend_from_slice(itoa::Buffer::new().format(text).as_bytes());
    let _ = bytes.try_extend_from_slice(b" | System.Close Edit.Recall Share.Forget");
    bytes
}
