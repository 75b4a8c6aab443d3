//! Expressions: operators between operands from the weakest to the strongest, signs, and what stands alone.
ghost use Rattle.std.specs.Prelude.{◌≡◌, ◌<◌, ◌≤◌, ◌-◌, length, map, Ok, OnOk};
ghost use Rattle.grammar_model.specs.Readings.{image, many, next, ◌&◌};
ghost use Rattle.idl_model.specs.Grammar.{of_table, truth_words};
ghost use Rattle.idl_model.specs.GrammarReading.{atom_by, chained, expr, group_at, signed_by, signed_of};
ghost use Rattle.idl_model.specs.Trees.{parentheses};
ghost use Rattle.idl_trees.specs.Expressions.{expr_of, operand_of, sign_of};
ghost use Rattle.idl_trees.specs.Tokens.{word_of};
ghost use Rattle.idl_parse.specs.Levels.{begins_operator, number_in, operator, truth_in, within_levels};
ghost use Rattle.idl_parse.specs.Reading.{Gives};

use crate::parser::{MOST_OPEN, Parser};
use crate::stop::Stop;
use idl_trees::{Expr, Operand, Sign, Word};

/// How many levels of operators there are, the strongest of which is 5.
const LEVELS: u32 = 6;

impl<'t> Parser<'t> {
    /// expr
    #[tactic(auto, unfolding(idl_model::specs::GrammarReading::expr, crate::specs::Levels::within_levels))]
    pub(crate) fn expr(&mut self) -> Result<Expr, Stop>
        ensures gives { Gives expr_of result self.new (expr 64 self.old) }
        ensures shorter { OnOk result (length self.new < length self.old) }
    {
        self.chain(LEVELS, MOST_OPEN)
    }

    /// An operand of the strongest of these levels, and others behind operators of the weakest of them. At most so many parentheses may
    /// open.
    #[cycle(expr)]
    #[tactic(auto, using(crate::proofs::ExprLemmas::levels))]
    fn chain(&mut self, levels: u32, depth: u32) -> Result<Expr, Stop>
        requires { levels ≤ 6 }
        ensures gives { Gives expr_of result self.new (within_levels levels (group_at depth) self.old) }
        ensures shorter { OnOk result (length self.new < length self.old) }
    {
        if levels == 0 {
            return self.signed(depth);
        }
        let first = self.chain(levels - 1, depth)?;
        let operands = self.operands(levels - 1, depth)?;
        self.chained(first, operands)
    }

    /// The operands behind the first of a chain, each of which stands within these levels.
    #[cycle(expr)]
    fn operands(&mut self, levels: u32, depth: u32) -> Result<Vec<Operand>, Stop>
        requires { levels ≤ 5 }
        ensures gives { Gives (λ operands. map operand_of operands.items) result self.new
            (many (begins_operator (5 - levels)) (operator (5 - levels) & within_levels levels (group_at depth)) self.old) }
        ensures shorter { OnOk result (length self.new ≤ length self.old) }
    {
        let mut operands = Vec::new(self.alloc);
        while self.begins_operator(LEVELS - 1 - levels) {
            let one = self.operand(levels, depth)?;
            operands.push(one)?;
        }
        Ok(operands)
    }

    /// An operand, behind its operator.
    #[cycle(expr)]
    fn operand(&mut self, levels: u32, depth: u32) -> Result<Operand, Stop>
        requires { levels ≤ 5 }
        ensures gives { Gives operand_of result self.new ((operator (5 - levels) & within_levels levels (group_at depth)) self.old) }
        ensures shorter { OnOk result (length self.new < length self.old) }
    {
        let operator = self.operator(LEVELS - 1 - levels)?;
        let value = self.chain(levels, depth)?;
        Ok(Operand { operator, value })
    }

    /// A chain, or its only operand.
    fn chained(&self, first: Expr, operands: Vec<Operand>) -> Result<Expr, Stop>
        ensures { Gives expr_of result self.now (Ok (chained (expr_of first, map operand_of operands.items), self.now)) }
    {
        if operands.is_empty() {
            drop(operands);
            return Ok(first);
        }
        let first = Box::new(self.alloc, first)?;
        Ok(Expr::Chain(first, operands))
    }

    /// Signs, and the operand behind them.
    #[cycle(expr)]
    fn signed(&mut self, depth: u32) -> Result<Expr, Stop>
        ensures gives { Gives expr_of result self.new (signed_by (group_at depth) self.old) }
        ensures shorter { OnOk result (length self.new < length self.old) }
    {
        let signs = self.signs()?;
        let operand = self.atom(depth)?;
        self.with_signs(signs, operand)
    }

    /// An operand behind signs, or without any.
    fn with_signs(&self, signs: Vec<Sign>, operand: Expr) -> Result<Expr, Stop>
        ensures { Gives expr_of result self.now (Ok (signed_of (map sign_of signs.items, expr_of operand), self.now)) }
    {
        if signs.is_empty() {
            return Ok(operand);
        }
        let operand = Box::new(self.alloc, operand)?;
        Ok(Expr::Signed(signs, operand))
    }

    /// A number, a truth, a name, or an expression in parentheses.
    #[cycle(expr)]
    fn atom(&mut self, depth: u32) -> Result<Expr, Stop>
        ensures gives { Gives expr_of result self.new (atom_by (group_at depth) self.old) }
        ensures shorter { OnOk result (length self.new < length self.old) }
    {
        if self.is_mark("(") {
            return self.parentheses(depth);
        }
        if let Some(number) = self.next_number() {
            self.skip();
            return Ok(Expr::Number(number));
        }
        if let Some(truth) = self.next_truth() {
            self.skip();
            return Ok(Expr::Truth(truth));
        }
        Ok(Expr::Constant(self.path()?))
    }

    /// The number that is next, if one is.
    fn next_number(&self) -> Option<u64>
        ensures { result ≡ number_in (next self.now) }
    {
        let Word::Number(number) = self.next_word()? else {
            return None;
        };
        Some(*number)
    }

    /// The truth that is next, if one is.
    fn next_truth(&self) -> Option<bool>
        ensures { result ≡ truth_in (next self.now) }
    {
        truth_of(self.next_word()?)
    }

    /// An expression in parentheses.
    #[cycle(expr)]
    fn parentheses(&mut self, depth: u32) -> Result<Expr, Stop>
        ensures gives { Gives expr_of result self.new (image parentheses (group_at depth) self.old) }
        ensures shorter { OnOk result (length self.new < length self.old) }
    {
        let inner = self.group(depth)?;
        let inner = Box::new(self.alloc, inner)?;
        Ok(Expr::Parentheses(inner))
    }

    /// "(" expr ")"
    #[cycle(expr)]
    #[tactic(auto, using(crate::proofs::ExprLemmas::groups))]
    fn group(&mut self, depth: u32) -> Result<Expr, Stop>
        ensures gives { Gives expr_of result self.new (group_at depth self.old) }
        ensures shorter { OnOk result (length self.new < length self.old) }
    {
        if depth == 0 {
            return Err(self.closed("("));
        }
        self.mark("(")?;
        let inner = self.chain(LEVELS, depth - 1)?;
        self.mark(")")?;
        Ok(inner)
    }
}

/// The truth that a word says.
fn truth_of(word: &Word) -> Option<bool>
    ensures { result ≡ of_table truth_words (word_of word.now) }
{
    let Word::Quoted(text) = word else {
        return None;
    };
    match text.as_str() {
        "TRUE" | "True" => Some(true),
        "FALSE" | "False" => Some(false),
        _ => None,
    }
}
