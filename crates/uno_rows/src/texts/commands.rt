//! What the words of a command ask.

use crate::texts::answer::Answer;
use command_words::{Command, WordsError, read_words};
use std::alloc::Global;

/// `words LINE`, with a blank before each word: the command with its words, and its options by name; or `refused`.
pub(crate) fn words(alloc: Global, line: &str, answer: &mut Answer) {
    let words = words_of(alloc, line);
    match &read_words(alloc, words.as_slice()) {
        Ok(command) => put_command(command, answer),
        Err(WordsError::Words) => answer.word("refused"),
        Err(WordsError::NoMemory) => answer.word("no memory"),
    }
}

fn words_of(alloc: Global, line: &str) -> Vec<String> {
    let mut words = Vec::new(alloc);
    for word in line.split(' ').skip(1) {
        if let Ok(word) = String::from_str(alloc, word) {
            words.push(word).ok();
        }
    }
    words
}

fn put_command(command: &Command, answer: &mut Answer) {
    match command {
        Command::Compile { files } => {
            answer.word("compile");
            for file in files {
                answer.word(file);
            }
        }
        Command::Idl { types } => put_words(&["idl", types], answer),
        Command::Answer => answer.word("answer"),
        Command::AnswerPlan { types, plan } => put_words(&["answer", types, plan], answer),
        Command::Pair {
            types,
            plan_a,
            plan_b,
            seed,
            cut,
            threads,
        } => {
            put_words(&["pair", types, plan_a, plan_b], answer);
            put_option("seed", *seed, answer);
            put_option("cut", Some(*cut), answer);
            put_option("threads", *threads, answer);
        }
        Command::Serve {
            types,
            plan,
            folder,
            accept,
            threads,
            sessions,
        } => {
            put_words(&["serve", types, plan, folder, accept], answer);
            put_option("threads", Some(*threads), answer);
            put_option("sessions", Some(*sessions), answer);
        }
        Command::Call {
            types,
            plan,
            folder,
            url,
            threads,
        } => {
            put_words(&["call", types, plan, folder, url], answer);
            put_option("threads", Some(*threads), answer);
        }
        Command::Drill { rounds, seed } => {
            answer.word("drill");
            answer.show(rounds);
            answer.show(seed);
        }
    }
}

fn put_words(words: &[&str], answer: &mut Answer) {
    for word in words {
        answer.word(word);
    }
}

/// An option, with `-` where it is absent and has no default.
fn put_option(name: &str, number: Option<u64>, answer: &mut Answer) {
    answer.word(name);
    match number {
        Some(number) => answer.show(&number),
        None => answer.word("-"),
    }
}
