//! Where caret and selection stand.

ghost use Rattle.std.specs.Prelude.{◌≡◌, ◌≤◌, ◌++◌, codes, IfOk, IfSome, is_some, Some as Just, None as Nothing, length, OnOk};
ghost use Rattle.looks.specs.Refusal.{RefusedForMemoryAlone};
ghost use Rattle.machine.specs.Printing.{line};
ghost use Rattle.machine.specs.ScreenPrinting.{caret_line, marks_lines, selection_line, spaced};
ghost use Rattle.machine.specs.declared.TheConstants.{MAX_TEXT};
ghost use Rattle.machine.specs.Windows.{Caret as CaretSeen, Window as WindowShown, window_of};
ghost use Rattle.texts.specs.TextState.{TextState, shown_of};
ghost use Rattle.desk_windows.specs.Pointing.{IsCaretSpot, IsMarked};
ghost use Rattle.desk_windows.specs.Windows.{AreOf, HasMovedTo, IsCaretPlace, screened};

use crate::pointing::Spot;
use crate::windows::Windows;
use char_files::TextNo;
use desk_texts::Texts;
use looks::Refusal;
use std::alloc::AllocError;
use text_frames::Caret;

/// What is marked of the text that a viewer shows.
#[derive(Clone, Copy)]
pub struct MarkedStretch {
    pub viewer: u32,
    pub text: TextNo,
    pub beg: u64,
    pub end: u64,
}

// Appends numbers, each after a blank. After an `Err` of this and of the others that append, some of it may stand there.
pub(crate) fn put_spaced(out: &mut Vec<u8>, numbers: &[u64]) -> Result<(), AllocError>
    ensures { OnOk result (out.new.items ≡ out.old.items ++ spaced numbers.now) }
{
    for number in numbers {
        out.push(b' ')?;
        out.extend_from_slice(itoa::Buffer::new().format(*number).as_bytes())?;
    }
    Ok(())
}

// Appends the line of a word and numbers.
fn put_line(out: &mut Vec<u8>, word: &[u8], numbers: &[u64]) -> Result<(), AllocError>
    ensures { OnOk result (out.new.items ≡ out.old.items ++ line (word.now ++ spaced numbers.now)) }
{
    out.extend_from_slice(word)?;
    put_spaced(out, numbers)?;
    out.push(b'\n')?;
    Ok(())
}

impl Windows {
    // Where the caret stands; `None` where there is none.
    fn caret_spot(&self, texts: &Texts) -> Option<Spot>
        requires { AreOf texts.now self.now }
        ensures { IsCaretSpot texts.now self.now result }
    {
        let Some(caret) = self.caret else {
            return None;
        };
        let Some(window) = self.viewers.content_at(caret.viewer) else {
            return None;
        };
        let pos = caret.place(texts.replica(window.text));
        Some(Spot {
            viewer: caret.viewer,
            text: window.text,
            pos,
        })
    }

    /// What is marked; `None` where nothing is shown of what is selected.
    pub fn marked(&self, texts: &Texts) -> Option<MarkedStretch>
        requires { AreOf texts.now self.now }
        ensures stretch { IsMarked texts.now self.now result }
        ensures on_desk { IfSome result (λ stretch. stretch.text ≤ MAX_TEXT) }
    {
        let Some(selection) = self.selected else {
            return None;
        };
        let Some(window) = self.viewers.content_at(selection.viewer) else {
            return None;
        };
        let Some((beg, end)) = selection.range(texts.replica(window.text)) else {
            return None;
        };
        Some(MarkedStretch {
            viewer: selection.viewer,
            text: window.text,
            beg,
            end,
        })
    }

    // Appends the line of the caret.
    fn put_caret(&self, texts: &Texts, out: &mut Vec<u8>) -> Result<(), AllocError>
        requires { AreOf texts.now self.now }
        ensures { OnOk result (out.new.items ≡ out.old.items ++ caret_line texts.now (screened self.now)) }
    {
        let Some(spot) = self.caret_spot(texts) else {
            return out.extend_from_slice(b"caret none\n");
        };
        let numbers = [u64::from(spot.viewer), u64::from(spot.text.get()), spot.pos];
        put_line(out, b"caret", numbers.as_slice())
    }

    // Appends the line of the selection.
    fn put_selection(&self, texts: &Texts, out: &mut Vec<u8>) -> Result<(), AllocError>
        requires { AreOf texts.now self.now }
        ensures { OnOk result (out.new.items ≡ out.old.items ++ selection_line texts.now (screened self.now)) }
    {
        let Some(marked) = self.marked(texts) else {
            return out.extend_from_slice(b"selection none\n");
        };
        let numbers = [
            u64::from(marked.viewer),
            u64::from(marked.text.get()),
            marked.beg,
            marked.end,
        ];
        put_line(out, b"selection", numbers.as_slice())
    }

    /// The lines that tell where caret and selection stand. Refused `OutOfMemory` alone.
    pub fn marks(&self, texts: &Texts) -> Result<Vec<u8>, Refusal>
        requires { AreOf texts.now self.now }
        ensures ok { IfOk result (λ lines. lines.items ≡ marks_lines texts.now (screened self.now)) }
        ensures errors { RefusedForMemoryAlone result }
    {
        let mut lines = Vec::new(self.alloc);
        self.put_caret(texts, &mut lines)?;
        self.put_selection(texts, &mut lines)?;
        Ok(lines)
    }

    /// Whether there is a caret.
    pub fn has_caret(&self) -> bool
        ensures { result ≡ is_some self.now.caret }
    {
        self.caret.is_some()
    }

    /// The caret's text, and how many shown characters stand before the caret; `None` where there is no caret.
    pub fn caret_place(&self, texts: &Texts) -> Option<(TextNo, u64)>
        requires { AreOf texts.now self.now }
        ensures place { IsCaretPlace texts.now self.now result }
        ensures on_desk { IfSome result (λ place. place.0 ≤ MAX_TEXT) }
    {
        match self.caret_spot(texts) {
            Some(spot) => Some((spot.text, spot.pos)),
            None => None,
        }
    }

    /// Sets the caret after so many shown characters of its text.
    pub fn move_caret(&mut self, texts: &Texts, pos: u64)
        requires of { AreOf texts.now self.old }
        requires in_text { (c : CaretSeen) (shown : WindowShown × TextState) → self.old.caret ≡ Just c
            → window_of texts.now (screened self.old) c.viewer ≡ Just shown → pos ≤ length (shown_of shown.1) }
        ensures moved { HasMovedTo texts.now self.old pos self.new }
        ensures none { self.old.caret ≡ Nothing → self.new ≡ self.old }
        ensures of { AreOf texts.now self.new }
    {
        let Some(spot) = self.caret_spot(texts) else {
            return;
        };
        let replica = texts.replica(spot.text);
        replica.lemma_is_text();
        let anchor = replica.anchor_after(pos);
        self.caret = Some(Caret {
            viewer: spot.viewer,
            anchor,
        });
    }
}
