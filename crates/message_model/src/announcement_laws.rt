//! Laws of the announcements that messages make: each function has an empty body, and its clauses are the law.
ghost use Rattle.std.specs.Prelude.{◌≡◌, ℕ, List, ◌++◌};
ghost use Rattle.message_model.specs.AnnouncingMessages.{message_announces, body_announces, stream_announces};
ghost use Rattle.message_model.specs.Calls.{Waits};
ghost use Rattle.message_model.specs.Headers.{Heard, nothing_heard};
ghost use Rattle.message_model.specs.Messages.{Message};
ghost use Rattle.message_model.specs.SpellingMessages.{SpellsMessage};
ghost use Rattle.message_model.specs.Streams.{SpellsBody, SpellsStream};
ghost use Rattle.uno_model.specs.Entities.{Entity};
ghost use Rattle.uno_model.specs.Sound.{IsSound};
ghost use Rattle.urp_model.specs.Announcing.{Announcements, before_them, AllMean};

/// What the tables mean after messages is what all announcements mean, those that the bytes of the messages make and behind them those that came
/// before; after a stream, all that its bytes make from the beginning.
pub fn tables_mean_what_messages_announce()
    ensures message { (reg : List Entity) (waits : Waits) (heard : Heard) (m : Message) (b : List ℕ) (after : Heard) (spelled : SpellsMessage reg waits heard m b after)
        (old : Announcements) → AllMean heard.tables old → AllMean after.tables (before_them (message_announces reg waits heard m b after spelled) old) }
    ensures body { (reg : List Entity) (ws : List Waits) (body : List ℕ) (heard : Heard) (ms : List Message) (after : Heard) (spelled : SpellsBody reg ws body heard ms after)
        (old : Announcements) → AllMean heard.tables old → AllMean after.tables (before_them (body_announces reg ws body heard ms after spelled) old) }
    ensures stream { (reg : List Entity) (wss : List (List Waits)) (s : List ℕ) (mss : List (List Message)) (after : Heard)
        (spelled : SpellsStream reg wss s nothing_heard mss after) → AllMean after.tables (stream_announces reg wss s nothing_heard mss after spelled) }
{}

/// The announcements are those of the bytes: however it is shown that bytes begin with a message, or are a body or a stream, they are the same.
pub fn the_bytes_of_messages_make_one_list_of_announcements()
    ensures message { (reg : List Entity) (waits : Waits) (heard t u : Heard) (m n : Message) (b c d e : List ℕ) → IsSound reg
        → (first : SpellsMessage reg waits heard m b t) (second : SpellsMessage reg waits heard n c u) → b ++ d ≡ c ++ e
        → message_announces reg waits heard m b t first ≡ message_announces reg waits heard n c u second }
    ensures body { (reg : List Entity) (ws : List Waits) (body : List ℕ) (heard t u : Heard) (ms ns : List Message) → IsSound reg
        → (first : SpellsBody reg ws body heard ms t) (second : SpellsBody reg ws body heard ns u)
        → body_announces reg ws body heard ms t first ≡ body_announces reg ws body heard ns u second }
    ensures stream { (reg : List Entity) (wss : List (List Waits)) (s : List ℕ) (heard t u : Heard) (mss nss : List (List Message)) → IsSound reg
        → (first : SpellsStream reg wss s heard mss t) (second : SpellsStream reg wss s heard nss u)
        → stream_announces reg wss s heard mss t first ≡ stream_announces reg wss s heard nss u second }
{}
