//! An image decodes to the state that it spells, and a state is spelled in one way: laws of the definitions alone.
//! No function here does anything; its contract is the law.

ghost use Rattle.std.specs.Prelude.{◌≡◌, ◌<◌, ◌≤◌, ◌↔◌, ℕ, suc, true, false, List, Some, None, is_some, length, if◌then◌else◌, ◌==◌};
ghost use Rattle.affinity.specs.Geometry.{stripe_of};
ghost use Rattle.affinity.specs.declared.geometry.Geometry.{Geometry};
ghost use Rattle.image.specs.Image.{AreGood, has_head, image_of, is_good, image_state, decoded_before, version_in, piece_in};
ghost use Rattle.image.specs.Pieces.{aggregate_of, part_of, piece_at, piece_count, piece_of, piece_size, stripe_entries, volume_of};
ghost use Rattle.image.specs.Touched.{may_change};
ghost use Rattle.image.specs.declared.layout.TheConstants.{VERSION};
ghost use Rattle.protocol.specs.Messages.{AreSizedBytes};
ghost use Rattle.protocol.specs.declared.messages.Msg.{Msg};
ghost use Rattle.device_map.specs.Layout.{image_size};
ghost use Rattle.meaning.specs.Step.{next_state};
ghost use Rattle.meaning.specs.State.{State, IsState};
ghost use Rattle.stripe.specs.Stripe.{BlockEntry, IsAscending, content_at};

/// The image of a state in the version that is written is read as that state.
pub fn a_state_is_read_again()
    ensures { (g : Geometry) (x : State) → IsState g x → image_state g (image_of VERSION g x) ≡ Some x }
{}

/// Bytes that are read as a state are its image, in the version that their first byte gives.
pub fn an_image_is_its_spelling()
    ensures { (g : Geometry) (bytes : List ℕ) (x : State) → image_state g bytes ≡ Some x → bytes ≡ image_of (version_in bytes) g x }
{}

/// If bytes of an image's length are read as a state, that state is a valid one of the geometry (`IsState`).
pub fn what_is_read_is_a_state()
    ensures { (g : Geometry) (bytes : List ℕ) (x : State) → AreSizedBytes (piece_at g (piece_count g)) bytes
        → image_state g bytes ≡ Some x → IsState g x }
{}

/// The pieces of an image can be taken in one after the other. The state with a piece taken in shows whether that piece
/// is good. The first pieces, if they are good, decode to a valid state. Just before a volume's own piece is taken in,
/// the state has no block of that volume. An image is read exactly if its head and all its pieces are good, and then as
/// the state that these decode to in order. (`decoded_before .. n` is the state to which the pieces before piece n decode.)
pub fn an_image_is_read_piece_by_piece()
    ensures state { (g : Geometry) (bytes : List ℕ) → AreSizedBytes (piece_at g (piece_count g)) bytes
        → (n : ℕ) → n ≤ piece_count g → AreGood g bytes n → IsState g (decoded_before (version_in bytes) g bytes n) }
    ensures no_blocks { (version : ℕ) (g : Geometry) (bytes : List ℕ) (n : ℕ) → n < piece_count g → part_of g n ≡ 0
        → (f b : ℕ) → (decoded_before version g bytes n).blocks (aggregate_of g n, volume_of g n, f, b) ≡ None }
    ensures good { (g : Geometry) (bytes : List ℕ) (n : ℕ) → n < piece_count g → (is_good g bytes n ≡ true)
        ↔ (piece_in g bytes n ≡ piece_of (version_in bytes) g (decoded_before (version_in bytes) g bytes (suc n)) n) }
    ensures all_good { (g : Geometry) (bytes : List ℕ) → AreSizedBytes (piece_at g (piece_count g)) bytes
        → has_head bytes ≡ true → AreGood g bytes (piece_count g)
        → image_state g bytes ≡ Some (decoded_before (version_in bytes) g bytes (piece_count g)) }
    ensures only_good { (g : Geometry) (bytes : List ℕ) → AreSizedBytes (piece_at g (piece_count g)) bytes
        → is_some (image_state g bytes) ≡ true → (has_head bytes ≡ true) × AreGood g bytes (piece_count g) }
{}

/// Each piece of an image has its size (`piece_size`) and its place (`piece_at`), and the last one ends where the
/// image's part of a device ends.
pub fn an_image_is_cut_into_its_pieces()
    ensures pieces { (version : ℕ) (g : Geometry) (x : State) → IsState g x → (n : ℕ) → n < piece_count g
        → piece_in g (image_of version g x) n ≡ piece_of version g x n }
    ensures sizes { (version : ℕ) (g : Geometry) (x : State) → IsState g x → (n : ℕ) → length (piece_of version g x n) ≡ piece_size g n }
    ensures end { (g : Geometry) → piece_at g (piece_count g) ≡ image_size g }
{}

/// Entries that ascend and hold the blocks of a stripe are those that spell it.
pub fn entries_of_a_stripe_are_spelled()
    ensures { (g : Geometry) (x : State) → IsState g x → (a v s : ℕ) (es : List BlockEntry) → IsAscending es
        → ((f b : ℕ) → content_at es f b ≡ (if stripe_of g f b == s then x.blocks (a, v, f, b) else None)) → es ≡ stripe_entries g x a v s }
{}

/// A piece that a message doesn't touch is the same before it and after it.
pub fn an_untouched_piece_stays()
    ensures { (version : ℕ) (g : Geometry) (x : State) (m : Msg) (n : ℕ) → IsState g x → may_change g m n ≡ false
        → piece_of version g (next_state g x m) n ≡ piece_of version g x n }
{}
