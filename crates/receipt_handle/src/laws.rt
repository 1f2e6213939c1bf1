//! What the format promises of every handle and every text.

ghost use Rattle.std.specs.Prelude.{◌≡◌, ◌<◌, ◌^◌, ℕ, List};
ghost use Rattle.receipt_handle.specs.declared.handle.Handle.{Handle};
ghost use Rattle.receipt_handle.specs.Handle.{handle_of, handle_text};

/// The text of a handle is read back, whatever the handle names.
pub fn every_handle_reads_back()
    ensures { (h : Handle) → h.uid < 2 ^ 64 → h.number < 2 ^ 64 → h.receipt < 2 ^ 64
        → handle_of (handle_text h) ≡ Ok h }
{}

/// A text that is read is the text of its handle, so no two texts are one handle.
pub fn every_handle_has_one_text()
    ensures own_text { (s : List ℕ) (h : Handle) → handle_of s ≡ Ok h → s ≡ handle_text h }
    ensures one_text { (s t : List ℕ) (h : Handle) → handle_of s ≡ Ok h → handle_of t ≡ Ok h
        → s ≡ t }
{}
