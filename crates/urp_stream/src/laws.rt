//! Laws of streams as blocks: each function has an empty body, and its clauses are the law.
ghost use Rattle.std.specs.Prelude.{◌≡◌, ℕ, ◌-◌, ◌≤◌, ◌⊎◌, List, [], ◌++◌, length, ◌↔◌};
ghost use Rattle.urp_model.specs.Blocks.{AreBytes, BeginsWhole};
ghost use Rattle.urp_model.specs.PlacedBlocks.{PlacedBlock, spell_blocks, AreBlocksAnd};
ghost use Rattle.urp_stream.specs.Headers.{SaysTooLarge, SaysNoMessages, HasNoBadHeader};
ghost use Rattle.urp_stream.specs.Runs.{Run};
ghost use Rattle.urp_stream.specs.Standing.{StandsAs, BeginsBad, StandAsBlocks, BreakBehindBlocks, IsRefusedAt};
ghost use Rattle.urp_stream.specs.Streams.{Stream};
ghost use Rattle.urp_stream.specs.Calls.{IsTaken};

/// How many bytes a feed takes is determined by what is held and the piece.
pub fn a_feed_takes_one_number_of_bytes()
    ensures { (held piece : List ℕ) (m n : ℕ) → IsTaken held piece m → IsTaken held piece n → m ≡ n }
{}

/// What calls took are the blocks that they gave, each at its place, and then what is held.
pub fn runs_give_what_they_took()
    ensures bytes { (s : List ℕ) (given : List PlacedBlock) (now : Stream) → Run s given now → AreBlocksAnd s given now.held }
    ensures place { (s : List ℕ) (given : List PlacedBlock) (now : Stream) → Run s given now → now.place ≡ length (spell_blocks given) }
    ensures stands { (s : List ℕ) (given : List PlacedBlock) (now : Stream) → Run s given now → ¬ BeginsWhole now.held → StandsAs s given now.held }
{}

/// Bytes stand as at most one list of blocks and one rest.
pub fn bytes_stand_as_one_list_of_blocks()
    ensures { (s : List ℕ) (blocks others : List PlacedBlock) (rest other : List ℕ)
        → StandsAs s blocks rest → StandsAs s others other → (blocks ≡ others) × (rest ≡ other) }
{}

/// Bytes stand as blocks and a rest, or a bad header stands behind blocks.
pub fn bytes_stand_as_blocks_or_break()
    ensures { (s : List ℕ) → AreBytes s → StandAsBlocks s ⊎ BreakBehindBlocks s }
{}

/// Bytes with a bad header behind blocks stand as no blocks, and no later bytes mend it.
pub fn bytes_that_break_stand_as_no_blocks()
    ensures never { (s : List ℕ) → BreakBehindBlocks s → ¬ StandAsBlocks s }
    ensures stays { (s more : List ℕ) → BreakBehindBlocks s → BreakBehindBlocks (s ++ more) }
{}

/// The blocks at the front of bytes are there whatever bytes follow.
pub fn later_bytes_change_no_block()
    ensures { (s more : List ℕ) (blocks others : List PlacedBlock) (rest other : List ℕ)
        → AreBlocksAnd s blocks rest → StandsAs (s ++ more) others other → (behind : List PlacedBlock) × (others ≡ blocks ++ behind) }
{}

/// Where a feed refuses a header, all bytes that were taken, with the piece, have a bad header behind blocks.
pub fn refusals_say_that_the_bytes_break()
    ensures { (s piece : List ℕ) (given : List PlacedBlock) (now : Stream)
        → Run s given now → BeginsBad (now.held ++ piece) → BreakBehindBlocks (s ++ piece) }
{}

/// However the same bytes were cut, the same blocks were given at the same places, and the same bytes are held.
pub fn runs_that_took_the_same_bytes_agree()
    ensures { (s : List ℕ) (given others : List PlacedBlock) (now other : Stream)
        → Run s given now → Run s others other → ¬ BeginsWhole now.held → ¬ BeginsWhole other.held → (given ≡ others) × (now ≡ other) }
{}

/// Where a feed refuses a header, the bytes of the piece that complete it are as many as those held are short of eight: with fewer it is not
/// refused, and with that many it is, whatever stands behind them. What is wrong with it is what its eight bytes say.
pub fn a_header_is_refused_at_its_eighth_byte()
    ensures place { (held piece : List ℕ) → HasNoBadHeader held → BeginsBad (held ++ piece) → IsRefusedAt held piece (8 - length held) }
    ensures always { (held piece : List ℕ) (n : ℕ) → IsRefusedAt held piece n → BeginsBad (held ++ piece) }
    ensures size { (header more : List ℕ) (size : ℕ) → 8 ≤ length header → (SaysTooLarge header size ↔ SaysTooLarge (header ++ more) size) }
    ensures count { (header more : List ℕ) → 8 ≤ length header → (SaysNoMessages header ↔ SaysNoMessages (header ++ more)) }
{}

/// Blocks with nothing behind them stand as these blocks.
pub fn blocks_with_nothing_behind_them_stand()
    ensures { (s : List ℕ) (blocks : List PlacedBlock) → AreBlocksAnd s blocks [] → StandsAs s blocks [] }
{}
