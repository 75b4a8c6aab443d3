//! The texts of the plans of `drill`: one object at each end, and four threads at the one that call that of the other.
ghost use Rattle.std.specs.List.{flat_map, range_with_len};
ghost use Rattle.std.specs.Fmt.{decimal};
ghost use Rattle.std.specs.Prelude.{◌≡◌, ◌++◌, ℕ, IfOk, OnOk, codes, string_bytes};
ghost use Rattle.report_model.specs.Drills.{calling_plan, depth_of, node_plan, round_in, round_text, thread_text};

use std::alloc::Global;
use uno_base::NoMemory;

/// The text of the end that is called.
const NODE: &str = "unoplan 1
behaviour Node demo.XNode
field kept demo.XNode
method demo.XNode relay
when $depth == 0 return 0
call r long = $back.relay($self,sub($depth,1))
return add($r,1)
end
method demo.XNode turn
set $.kept = $n
return $n
end
method demo.XNode check
when $a == 0 return
raise demo.Refused {\"no\",null,7}
end
method demo.XNode forget
raise demo.Refused {\"no\",null,7}
end
method demo.XNode shut
dispose
end
end
export \"node\" Node
";

/// What each thread does first.
const ASK: &str = "thread
ask n demo.XNode = \"node\"
";

/// How many threads there are.
const THREADS: u32 = 4;

/// How many depths there are of calls that call back.
const DEPTHS: u64 = 7;

/// The text of the end that is called.
#[tactic(auto, unfolding(report_model::specs::Drills::node_plan))]
pub(crate) fn called_plan() -> &'static [u8]
    ensures { result.now ≡ node_plan }
{
    NODE.as_bytes()
}

/// The text of the end that calls.
pub(crate) fn calling_plan(alloc: Global, rounds: u32, seed: u64) -> Result<String, NoMemory>
    ensures { IfOk result (λ text. string_bytes text ≡ calling_plan rounds seed) }
{
    let mut text = node_text(alloc)?;
    push_threads(alloc, &mut text, rounds, seed)?;
    Ok(text)
}

#[tactic(auto, unfolding(report_model::specs::Drills::node_plan))]
fn node_text(alloc: Global) -> Result<String, NoMemory>
    ensures { IfOk result (λ text. string_bytes text ≡ node_plan) }
{
    let text = String::from_str(alloc, NODE)?;
    Ok(text)
}

/// Puts the threads behind a text.
fn push_threads(alloc: Global, text: &mut String, rounds: u32, seed: u64) -> Result<(), NoMemory>
    ensures { OnOk result (string_bytes text.new ≡ string_bytes text.old ++ flat_map (thread_text rounds seed) (range_with_len 0 4)) }
{
    for thread in 0..THREADS {
        push_thread(alloc, text, rounds, seed, thread)?;
    }
    Ok(())
}

/// Puts a thread behind a text.
fn push_thread(
    alloc: Global,
    text: &mut String,
    rounds: u32,
    seed: u64,
    thread: u32,
) -> Result<(), NoMemory>
    ensures { OnOk result (string_bytes text.new ≡ string_bytes text.old ++ thread_text rounds seed thread) }
{
    text.push_str(ASK)?;
    push_rounds(alloc, text, rounds, seed, thread)?;
    text.push_str("end\n")?;
    Ok(())
}

/// Puts the rounds of a thread behind a text: one of four is its own.
fn push_rounds(
    alloc: Global,
    text: &mut String,
    rounds: u32,
    seed: u64,
    thread: u32,
) -> Result<(), NoMemory>
    ensures { OnOk result (string_bytes text.new ≡ string_bytes text.old ++ flat_map (round_in seed thread) (range_with_len 0 rounds)) }
{
    for round in 0..rounds {
        push_if_own(alloc, text, seed, thread, round)?;
    }
    Ok(())
}

/// Puts a round behind a text where it is the thread's own.
fn push_if_own(
    alloc: Global,
    text: &mut String,
    seed: u64,
    thread: u32,
    round: u32,
) -> Result<(), NoMemory>
    ensures { OnOk result (string_bytes text.new ≡ string_bytes text.old ++ round_in seed thread round) }
{
    if round % THREADS == thread {
        push_round(alloc, text, seed, round)
    } else {
        Ok(())
    }
}

/// Puts a round behind a text: an object goes to the other end, which calls it back so often, and comes back.
fn push_round(alloc: Global, text: &mut String, seed: u64, round: u32) -> Result<(), NoMemory>
    ensures { OnOk result (string_bytes text.new ≡ string_bytes text.old ++ round_text seed round) }
{
    push_text(text, relay_lines(alloc, round, depth_of(seed, round))?)?;
    push_text(text, turn_line(alloc, round)?)?;
    push_text(text, last_lines(alloc, round)?)?;
    Ok(())
}

fn push_text(text: &mut String, lines: String) -> Result<(), NoMemory>
    ensures { OnOk result (string_bytes text.new ≡ string_bytes text.old ++ string_bytes lines) }
{
    text.push_str(lines.as_str())?;
    Ok(())
}

/// How often the calls of a round go back and forth.
fn depth_of(seed: u64, round: u32) -> u64
    ensures { result ≡ depth_of seed round }
{
    (seed % DEPTHS + u64::from(round)) % DEPTHS
}

/// A new object is called back.
fn relay_lines(alloc: Global, round: u32, depth: u64) -> Result<String, NoMemory>
    ensures { IfOk result (λ text. string_bytes text
        ≡ codes "new o" ++ (decimal round ++ (codes " demo.XNode = Node\ncall r" ++ (decimal round ++ (codes " long = $n.relay($o" ++ (decimal round ++ (codes "," ++ (decimal depth ++ codes ")\n")))))))) }
{
    let text = format!(in alloc;
        "new o{round} demo.XNode = Node\ncall r{round} long = $n.relay($o{round},{depth})\n"
    )?;
    Ok(text)
}

/// It comes back.
fn turn_line(alloc: Global, round: u32) -> Result<String, NoMemory>
    ensures { IfOk result (λ text. string_bytes text
        ≡ codes "call t" ++ (decimal round ++ (codes " com.sun.star.uno.XInterface = $n.turn($o" ++ (decimal round ++ codes ")\n")))) }
{
    let text = format!(in alloc;
        "call t{round} com.sun.star.uno.XInterface = $n.turn($o{round})\n"
    )?;
    Ok(text)
}

/// It is the same, and is let go.
fn last_lines(alloc: Global, round: u32) -> Result<String, NoMemory>
    ensures { IfOk result (λ text. string_bytes text
        ≡ codes "same $t" ++ (decimal round ++ (codes " $o" ++ (decimal round ++ (codes "\ndrop $o" ++ (decimal round ++ (codes "\ndrop $t" ++ (decimal round ++ codes "\n")))))))) }
{
    let text = format!(in alloc; "same $t{round} $o{round}\ndrop $o{round}\ndrop $t{round}\n")?;
    Ok(text)
}
