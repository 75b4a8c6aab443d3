//! What the words ask.

/// A command with its words, in the order of its written form, and its options; an option that has a default has a number always.
#[derive(Drop)]
pub enum Command {
    /// 1 to 64 files.
    Compile {
        files: Vec<String>,
    },
    Idl {
        types: String,
    },
    Answer,
    AnswerPlan {
        types: String,
        plan: String,
    },
    Pair {
        types: String,
        plan_a: String,
        plan_b: String,
        seed: Option<u64>,
        /// 1 to 65,536.
        cut: u64,
        /// 1 to 16; never beside a seed.
        threads: Option<u64>,
    },
    Serve {
        types: String,
        plan: String,
        folder: String,
        accept: String,
        /// 1 to 16.
        threads: u64,
        /// 1 to 1,000.
        sessions: u64,
    },
    Call {
        types: String,
        plan: String,
        folder: String,
        url: String,
        /// 1 to 16.
        threads: u64,
    },
    Drill {
        /// 1 to 10,000.
        rounds: u64,
        seed: u64,
    },
}
