//! The laws of codewords and of the frames of values. Each function does nothing: what it ensures is the law.

ghost use Rattle.std.specs.Prelude.{◌≡◌, ◌≢◌, ℕ, ◌<◌, ◌≤◌, ◌%◌, ◌↔◌, List, [], length, All, slice_get, take, IsTrue};
ghost use Rattle.gf_field.specs.Polynomial.{AreDistinct};
ghost use Rattle.rs_shards.specs.Codeword.{IsCodeword, data_of};
ghost use Rattle.rs_shards.specs.Column.{AreEven};
ghost use Rattle.rs_shards.specs.Rebuilding.{AreShards, IsRebuilt};
ghost use Rattle.rs_shards.specs.Completing.{are_even, completed, encoded, IsEncoding, shard_length};
ghost use Rattle.rs_shards.specs.Frame.{frame, framed_value};
ghost use Rattle.hb_base.specs.Limits.{longest_value};
ghost use Rattle.hb_base.specs.ByteLists.{AreBytes};

/// Two codewords that have the same shards at k different places are equal. Their shards consist of bytes.
pub fn codeword_laws()
    ensures unique { (n k : ℕ) (a b : List (List ℕ)) (places : List ℕ) → 1 ≤ k → n ≤ 256 → IsCodeword n k a → IsCodeword n k b
        → length places ≡ k → AreDistinct places → All (λ m. m < n) places → All (λ m. slice_get a m ≡ slice_get b m) places
        → a ≡ b }
    ensures bytes { (n k : ℕ) (shards : List (List ℕ)) → n ≤ 256 → IsCodeword n k shards → All AreBytes shards }
{}

/// Through k shards of one length with different indices below n there is one codeword, and no other has them.
pub fn completing_laws()
    ensures rebuilt { (n k : ℕ) (got : List (ℕ × List ℕ)) → 1 ≤ k → n ≤ 256 → k ≤ length got → AreShards n got
        → IsTrue (are_even (take k got)) → IsRebuilt n k got (completed n k got) }
    ensures only { (n k : ℕ) (got : List (ℕ × List ℕ)) (shards : List (List ℕ)) → 1 ≤ k → n ≤ 256 → k ≤ length got → AreShards n got
        → IsRebuilt n k got shards → shards ≡ completed n k got }
    ensures even { (n k : ℕ) (got : List (ℕ × List ℕ)) (shards : List (List ℕ)) → 1 ≤ k → n ≤ 256 → k ≤ length got → AreShards n got
        → IsRebuilt n k got shards → IsTrue (are_even (take k got)) }
    ensures tested { (got : List (ℕ × List ℕ)) → IsTrue (are_even got) ↔ AreEven got }
{}

/// A value has one encoding, whose shards have a length that the value's length gives.
pub fn encoding_laws()
    ensures encoding { (n k : ℕ) (value : List ℕ) → 1 ≤ k → k ≤ n → n ≤ 256 → AreBytes value → IsEncoding n k value (encoded n k value) }
    ensures only { (n k : ℕ) (value : List ℕ) (shards : List (List ℕ)) → 1 ≤ k → k ≤ n → n ≤ 256
        → IsEncoding n k value shards → shards ≡ encoded n k value }
    ensures lengths { (n k : ℕ) (value : List ℕ) (shards : List (List ℕ)) → 1 ≤ k → k ≤ n → n ≤ 256
        → IsEncoding n k value shards → All (λ shard. length shard ≡ shard_length k (length value)) shards }
{}

/// What is read from the shards of a value is the value, and what is read from the shards of no value is the
/// empty value.
pub fn frame_laws()
    ensures whole { (k : ℕ) (value : List ℕ) → 1 ≤ k → length (frame k value) % k ≡ 0 }
    ensures read_back { (k : ℕ) (value : List ℕ) (shards : List (List ℕ)) → 1 ≤ k → length value ≤ longest_value
        → data_of k shards ≡ frame k value → framed_value k shards ≡ value }
    ensures false_frame { (n k : ℕ) (shards : List (List ℕ)) → 1 ≤ k → k ≤ n → n ≤ 256 → IsCodeword n k shards
        → ((value : List ℕ) → length value ≤ longest_value → data_of k shards ≢ frame k value)
        → framed_value k shards ≡ [] }
{}
