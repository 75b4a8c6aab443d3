//! Laws of bodies and streams with all that is wrong with them: each function has an empty body, and its clauses are the law.
ghost use Rattle.std.specs.Prelude.{◌≡◌, ℕ, List, [], ◌++◌, length, map, None, Some, ◌↔◌};
ghost use Rattle.message_model.specs.Headers.{Heard, nothing_heard};
ghost use Rattle.message_model.specs.Messages.{Message};
ghost use Rattle.message_model.specs.ReadingStreams.{Awaiting, along, along_blocks, BodyFault, offset_of, BodyRead, body_at, offset_at, IsFinal, IsBodyRead, BeginsWith};
ghost use Rattle.message_model.specs.ReadingStreams.{StreamFault, StreamRead, stream_at, IsBrokenStream, IsStreamRead};
ghost use Rattle.message_model.specs.Said.{spoken_after, spell, said_blocks, AreLight};
ghost use Rattle.message_model.specs.Sayable.{arrived, MemoriesCorrespond};
ghost use Rattle.message_model.specs.Streams.{SpellsBody, SpellsStream, EachCanBeSaid};
ghost use Rattle.uno_model.specs.Entities.{Entity};
ghost use Rattle.uno_model.specs.Sound.{IsSound};
ghost use Rattle.urp_model.specs.PlacedBlocks.{PlacedBlock, spell_blocks, AreBlocksAnd};

/// Of a body that says how many messages it has, just the messages at its front are read, up to the first fault: bytes behind the last one, or a
/// message that is not read. Each message is read while those calls wait that wait after the messages before it.
pub fn bodies_are_read_as_they_are_spelled()
    ensures all { (reg : List Entity) → IsSound reg → (waits : Awaiting) (count : ℕ) (heard : Heard) (body : List ℕ) (read : BodyRead)
        → (body_at reg waits count heard body ≡ read) ↔ IsBodyRead reg waits count heard body read }
    ensures whole { (reg : List Entity) → IsSound reg → (waits : Awaiting) (count : ℕ) (heard t : Heard) (body : List ℕ) (ms : List Message)
        → (body_at reg waits count heard body ≡ record { messages = ms; heard = t; fault = None })
        ↔ ((length ms ≡ count) × SpellsBody reg (along waits ms) body heard ms t) }
{}

/// The offset of a message in a body is the length of those before it. These stand at the front of the body, and a fault begins behind all that
/// are read.
pub fn each_message_stands_behind_those_before_it()
    ensures spelled { (reg : List Entity) → IsSound reg → (waits : Awaiting) (heard t : Heard) (front rest : List ℕ) (ms : List Message)
        → SpellsBody reg (along waits ms) front heard ms t → offset_at reg waits (length ms) heard (front ++ rest) ≡ length front }
    ensures read { (reg : List Entity) → IsSound reg → (waits : Awaiting) (count : ℕ) (heard : Heard) (body : List ℕ) (ms ns : List Message)
        → (body_at reg waits count heard body).messages ≡ ms ++ ns → BeginsWith reg waits heard body ms }
    ensures fault { (reg : List Entity) → IsSound reg → (waits : Awaiting) (count : ℕ) (heard : Heard) (body : List ℕ) (fault : BodyFault)
        → (body_at reg waits count heard body).fault ≡ Some fault
        → offset_of fault ≡ offset_at reg waits (length (body_at reg waits count heard body).messages) heard body }
{}

/// More bytes in a body mend no fault but that of a message that runs past it.
pub fn more_bytes_in_a_body_mend_no_fault()
    ensures { (reg : List Entity) → IsSound reg → (waits : Awaiting) (count : ℕ) (heard : Heard) (body more : List ℕ) (fault : BodyFault)
        → (body_at reg waits count heard body).fault ≡ Some fault → IsFinal fault
        → body_at reg waits count heard (body ++ more) ≡ body_at reg waits count heard body }
{}

/// Of the blocks of a stream just the messages at its front are read, up to the first fault. Its place is that of the message's first byte in all
/// bytes, and where bytes stand behind the last message of a block that of the block's; a block stands where those before it end.
pub fn streams_are_read_as_they_are_spelled()
    ensures all { (reg : List Entity) → IsSound reg → (s rest : List ℕ) (blocks : List PlacedBlock) (waits : Awaiting) (heard : Heard) (read : StreamRead)
        → AreBlocksAnd s blocks rest → (stream_at reg waits heard blocks ≡ read) ↔ IsStreamRead reg waits heard blocks read }
    ensures place { (reg : List Entity) (s rest : List ℕ) (blocks : List PlacedBlock) (waits : Awaiting) (heard : Heard) (read : StreamRead) (fault : StreamFault)
        → AreBlocksAnd s blocks rest → (is : IsBrokenStream reg waits heard blocks read fault) → is.broken.place ≡ length (spell_blocks is.before) }
{}

/// No later bytes mend a fault in a stream: with more blocks the same is read, and however the bytes go on they spell no stream.
pub fn later_bytes_mend_no_fault()
    ensures read { (reg : List Entity) (blocks more : List PlacedBlock) (waits : Awaiting) (heard : Heard) (fault : StreamFault)
        → (stream_at reg waits heard blocks).fault ≡ Some fault → stream_at reg waits heard (blocks ++ more) ≡ stream_at reg waits heard blocks }
    ensures never { (reg : List Entity) → IsSound reg → (s rest more : List ℕ) (blocks : List PlacedBlock) (waits : Awaiting) (heard t : Heard) (mss : List (List Message))
        (fault : StreamFault) → AreBlocksAnd s blocks rest → (stream_at reg waits heard blocks).fault ≡ Some fault
        → ¬ SpellsStream reg (along_blocks waits mss) (s ++ more) heard mss t }
{}

/// What one end says stands as blocks of one message each, at their places and with nothing behind them; they are read as what arrives.
pub fn what_was_said_stands_as_blocks()
    ensures stands { (reg : List Entity) (said : List Message) → AreLight said → AreBlocksAnd (spell reg said) (said_blocks reg said) [] }
    ensures read { (reg : List Entity) → IsSound reg → (waits : Awaiting) (said : List Message) → EachCanBeSaid reg (along waits (map (arrived reg) said)) said
        → (t : Heard) × (stream_at reg waits nothing_heard (said_blocks reg said) ≡ record { messages = map (arrived reg) said; heard = t; fault = None })
        × MemoriesCorrespond t (spoken_after reg said) }
{}
