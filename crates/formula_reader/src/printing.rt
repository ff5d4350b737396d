//! The canonical text of a rule.
ghost use Rattle.std.specs.Prelude.{◌≡◌, ◌++◌, ◌∷◌, [], Option, codes, decimal, OnErr, OnOk};
ghost use Rattle.std.specs.Prelude.{slice_index_or};
ghost use Rattle.std.specs.List.{flat_map};
ghost use Rattle.enf_value.specs.machine.ValueCalls.{AppendsPart};
ghost use Rattle.enf_value.specs.meaning.Tokens.{spelled};
ghost use Rattle.formula_reader.specs.meaning.RuleText.{atom_text, comparison_text, end_text, formula_text, infix_text};
ghost use Rattle.formula_reader.specs.meaning.RuleText.{interval_text, name_text, prefix_text, quantified_text};
ghost use Rattle.formula_reader.specs.meaning.RuleText.{rule_text, separated_text, formula_stands_alone as is_alone};
ghost use Rattle.formula_reader.specs.meaning.RuleText.{term_text};
ghost use Rattle.formula_reader.specs.machine.PrintedOperators.{operand_text, operator_text};
ghost use Rattle.formula_reader.specs.meaning.Resolution.{variable_text};
ghost use Rattle.formula_reader.specs.machine.StoredRules.{rule_of};
ghost use Rattle.enf_formula.specs.machine.FormulaViews as tree;

use crate::policies::{Rule, VarNames};
use enf_data::{Interval, NameId, NoMemory, Term, VarId};
use enf_formula::Formula;
use enf_value::{print_bytes, print_number, print_value};
use signature::Signature;

/// Appends the canonical text of a rule. Where memory runs out, a front of it is appended.
pub fn print_rule(signature: &Signature, rule: &Rule, out: &mut Vec<u8>) -> Result<(), NoMemory>
    ensures ok { OnOk result (out.new.items ≡ out.old.items ++ rule_text signature.now (rule_of rule.now)) }
    ensures err { OnErr result (AppendsPart (rule_text signature.now (rule_of rule.now)) out.old.items out.new.items) }
{
    let printer = Printer {
        signature,
        vars: &rule.vars,
    };
    print_bytes(b"rule ", out)?;
    print_bytes(rule.name.bytes(), out)?;
    print_bytes(b": ", out)?;
    printer.print_formula(&rule.formula, out)?;
    print_bytes(b";", out)
}

// What the names and variables of a formula are called.
#[derive(Clone, Copy)]
struct Printer<'a> {
    signature: &'a Signature,
    vars: &'a VarNames,
}

// An operator, with the interval of one that has an interval.
#[derive(Clone, Copy)]
struct OperatorWord<'a> {
    word: &'a [u8],
    interval: Option<&'a Interval>,
}

impl Printer<'_> {
    fn print_name(&self, name: NameId, out: &mut Vec<u8>) -> Result<(), NoMemory>
        ensures ok { OnOk result (out.new.items ≡ out.old.items ++ name_text self.now.signature.now name) }
        ensures err { OnErr result (out.new.items ≡ out.old.items) }
    {
        match self.signature.entry(name) {
            Some(entry) => print_bytes(entry.text.bytes(), out),
            None => Ok(()),
        }
    }

    fn print_variable(&self, variable: VarId, out: &mut Vec<u8>) -> Result<(), NoMemory>
        ensures ok { OnOk result (out.new.items ≡ out.old.items ++ variable_text self.now.vars.now variable) }
        ensures err { OnErr result (out.new.items ≡ out.old.items) }
    {
        match self.vars.get(variable.0 as usize) {
            Some(name) => print_bytes(name.bytes(), out),
            None => Ok(()),
        }
    }

    fn print_term(&self, term: &Term, out: &mut Vec<u8>) -> Result<(), NoMemory>
        ensures ok { OnOk result (out.new.items ≡ out.old.items ++ term_text self.now.vars.now term.now) }
        ensures err { OnErr result (AppendsPart (term_text self.now.vars.now term.now) out.old.items out.new.items) }
    {
        match term {
            Term::Var(variable) => self.print_variable(*variable, out),
            Term::Const(value) => print_value(value, out),
        }
    }

    fn print_terms(&self, terms: &[Term], out: &mut Vec<u8>) -> Result<(), NoMemory>
        ensures ok { OnOk result
            (out.new.items ≡ out.old.items ++ separated_text (term_text self.now.vars.now) (codes ",") terms.now) }
        ensures err { OnErr result
            (AppendsPart (separated_text (term_text self.now.vars.now) (codes ",") terms.now) out.old.items
            out.new.items) }
    {
        let [first, rest @ ..] = terms else {
            return Ok(());
        };
        self.print_term(first, out)?;
        for term in rest {
            print_bytes(b",", out)?;
            self.print_term(term, out)?;
        }
        Ok(())
    }

    fn print_variables(&self, variables: &[VarId], out: &mut Vec<u8>) -> Result<(), NoMemory>
        ensures ok { OnOk result
            (out.new.items ≡ out.old.items
            ++ separated_text (variable_text self.now.vars.now) (codes ", ") variables.now) }
        ensures err { OnErr result
            (AppendsPart (separated_text (variable_text self.now.vars.now) (codes ", ") variables.now) out.old.items
            out.new.items) }
    {
        let [first, rest @ ..] = variables else {
            return Ok(());
        };
        self.print_variable(*first, out)?;
        for variable in rest {
            print_bytes(b", ", out)?;
            self.print_variable(*variable, out)?;
        }
        Ok(())
    }

    fn print_atom(&self, name: NameId, terms: &[Term], out: &mut Vec<u8>) -> Result<(), NoMemory>
        ensures ok { OnOk result
            (out.new.items ≡ out.old.items ++ atom_text self.now.signature.now self.now.vars.now name terms.now) }
        ensures err { OnErr result
            (AppendsPart (atom_text self.now.signature.now self.now.vars.now name terms.now) out.old.items
            out.new.items) }
    {
        self.print_name(name, out)?;
        print_bytes(b"(", out)?;
        self.print_terms(terms, out)?;
        print_bytes(b")", out)
    }

    fn print_comparison(
        &self,
        left: &Term,
        sign: &[u8],
        right: &Term,
        out: &mut Vec<u8>,
    ) -> Result<(), NoMemory>
        ensures ok { OnOk result
            (out.new.items ≡ out.old.items ++ comparison_text self.now.vars.now left.now sign.now right.now) }
        ensures err { OnErr result
            (AppendsPart (comparison_text self.now.vars.now left.now sign.now right.now) out.old.items out.new.items) }
    {
        self.print_term(left, out)?;
        print_bytes(sign, out)?;
        self.print_term(right, out)
    }

    #[cycle(printing)]
    fn print_formula(&self, formula: &Formula, out: &mut Vec<u8>) -> Result<(), NoMemory>
        ensures ok { OnOk result
            (out.new.items ≡ out.old.items ++ formula_text self.now.signature.now self.now.vars.now
            (tree.tree_of formula.now)) }
        ensures err { OnErr result
            (AppendsPart (formula_text self.now.signature.now self.now.vars.now (tree.tree_of formula.now))
            out.old.items out.new.items) }
    {
        match formula {
            Formula::True(_) => print_bytes(b"true", out),
            Formula::False(_) => print_bytes(b"false", out),
            Formula::Atom(_, name, terms) => self.print_atom(*name, terms.as_slice(), out),
            Formula::Equal(_, s, t) => self.print_comparison(s, b" = ", t, out),
            Formula::Less(_, s, t) => self.print_comparison(s, b" < ", t, out),
            Formula::AtMost(_, s, t) => self.print_comparison(s, b" <= ", t, out),
            Formula::Not(_, f) => self.print_prefix(&OperatorWord::plain(b"not"), f, out),
            Formula::And(_, f, g) => self.print_infix(f, &OperatorWord::plain(b"and"), g, out),
            Formula::Or(_, f, g) => self.print_infix(f, &OperatorWord::plain(b"or"), g, out),
            Formula::Implies(_, f, g) => self.print_infix(f, &OperatorWord::plain(b"->"), g, out),
            Formula::Exists(_, xs, f) => self.print_quantified(b"exists ", xs.as_slice(), f, out),
            Formula::Forall(_, xs, f) => self.print_quantified(b"forall ", xs.as_slice(), f, out),
            Formula::Prev(_, interval, f) => self.print_prefix(
                &OperatorWord::timed(b"prev", interval),
                f,
                out,
            ),
            Formula::Next(_, interval, f) => self.print_prefix(
                &OperatorWord::timed(b"next", interval),
                f,
                out,
            ),
            Formula::Once(_, interval, f) => self.print_prefix(
                &OperatorWord::timed(b"once", interval),
                f,
                out,
            ),
            Formula::Historically(_, interval, f) => self.print_prefix(
                &OperatorWord::timed(b"historically", interval),
                f,
                out,
            ),
            Formula::Since(_, interval, f, g) => self.print_infix(
                f,
                &OperatorWord::timed(b"since", interval),
                g,
                out,
            ),
            Formula::Eventually(_, interval, f) => self.print_prefix(
                &OperatorWord::timed(b"eventually", interval),
                f,
                out,
            ),
            Formula::Always(_, interval, f) => self.print_prefix(
                &OperatorWord::timed(b"always", interval),
                f,
                out,
            ),
            Formula::Until(_, interval, f, g) => self.print_infix(
                f,
                &OperatorWord::timed(b"until", interval),
                g,
                out,
            ),
        }
    }

    #[cycle(printing)]
    fn print_operand(&self, formula: &Formula, out: &mut Vec<u8>) -> Result<(), NoMemory>
        ensures ok { OnOk result
            (out.new.items ≡ out.old.items ++ operand_text self.now.signature.now self.now.vars.now
            (tree.tree_of formula.now)) }
        ensures err { OnErr result
            (AppendsPart (operand_text self.now.signature.now self.now.vars.now (tree.tree_of formula.now))
            out.old.items out.new.items) }
    {
        if stands_alone(formula) {
            return self.print_formula(formula, out);
        }
        print_bytes(b"(", out)?;
        self.print_formula(formula, out)?;
        print_bytes(b")", out)
    }

    #[cycle(printing)]
    fn print_prefix(
        &self,
        operator: &OperatorWord,
        formula: &Formula,
        out: &mut Vec<u8>,
    ) -> Result<(), NoMemory>
        ensures ok { OnOk result (out.new.items ≡ out.old.items
            ++ prefix_text (operator_text operator.now)
            (operand_text self.now.signature.now self.now.vars.now (tree.tree_of formula.now))) }
        ensures err { OnErr result (AppendsPart
            (prefix_text (operator_text operator.now)
            (operand_text self.now.signature.now self.now.vars.now (tree.tree_of formula.now))) out.old.items
            out.new.items) }
    {
        operator.print(out)?;
        print_bytes(b" ", out)?;
        self.print_operand(formula, out)
    }

    #[cycle(printing)]
    fn print_infix(
        &self,
        left: &Formula,
        operator: &OperatorWord,
        right: &Formula,
        out: &mut Vec<u8>,
    ) -> Result<(), NoMemory>
        ensures ok { OnOk result (out.new.items ≡ out.old.items
            ++ infix_text (operand_text self.now.signature.now self.now.vars.now (tree.tree_of left.now))
            (operator_text operator.now)
            (operand_text self.now.signature.now self.now.vars.now (tree.tree_of right.now))) }
        ensures err { OnErr result (AppendsPart
            (infix_text (operand_text self.now.signature.now self.now.vars.now (tree.tree_of left.now))
            (operator_text operator.now)
            (operand_text self.now.signature.now self.now.vars.now (tree.tree_of right.now))) out.old.items
            out.new.items) }
    {
        self.print_operand(left, out)?;
        print_bytes(b" ", out)?;
        operator.print(out)?;
        print_bytes(b" ", out)?;
        self.print_operand(right, out)
    }

    #[cycle(printing)]
    fn print_quantified(
        &self,
        word: &[u8],
        variables: &[VarId],
        formula: &Formula,
        out: &mut Vec<u8>,
    ) -> Result<(), NoMemory>
        ensures ok { OnOk result (out.new.items ≡ out.old.items
            ++ quantified_text self.now.vars.now word.now variables.now
            (operand_text self.now.signature.now self.now.vars.now (tree.tree_of formula.now))) }
        ensures err { OnErr result (AppendsPart
            (quantified_text self.now.vars.now word.now variables.now
            (operand_text self.now.signature.now self.now.vars.now (tree.tree_of formula.now)))
            out.old.items out.new.items) }
    {
        print_bytes(word, out)?;
        self.print_variables(variables, out)?;
        print_bytes(b". ", out)?;
        self.print_operand(formula, out)
    }
}

impl<'a> OperatorWord<'a> {
    fn plain(word: &'a [u8]) -> OperatorWord<'a>
        ensures { operator_text result ≡ word.now }
    {
        OperatorWord {
            word,
            interval: None,
        }
    }

    fn timed(word: &'a [u8], interval: &'a Interval) -> OperatorWord<'a>
        ensures { operator_text result ≡ word.now ++ interval_text interval.now }
    {
        OperatorWord {
            word,
            interval: Some(interval),
        }
    }

    fn print(&self, out: &mut Vec<u8>) -> Result<(), NoMemory>
        ensures ok { OnOk result (out.new.items ≡ out.old.items ++ operator_text self.now) }
        ensures err { OnErr result (AppendsPart (operator_text self.now) out.old.items out.new.items) }
    {
        print_bytes(self.word, out)?;
        match self.interval {
            Some(interval) => print_interval(interval, out),
            None => Ok(()),
        }
    }
}

fn print_interval(interval: &Interval, out: &mut Vec<u8>) -> Result<(), NoMemory>
    ensures ok { OnOk result (out.new.items ≡ out.old.items ++ interval_text interval.now) }
    ensures err { OnErr result (AppendsPart (interval_text interval.now) out.old.items out.new.items) }
{
    print_bytes(b"[", out)?;
    print_number(interval.low, out)?;
    print_bytes(b",", out)?;
    print_end(interval.high, out)?;
    print_bytes(b"]", out)
}

fn print_end(high: Option<u64>, out: &mut Vec<u8>) -> Result<(), NoMemory>
    ensures ok { OnOk result (out.new.items ≡ out.old.items ++ end_text high) }
    ensures err { OnErr result (out.new.items ≡ out.old.items) }
{
    match high {
        Some(high) => print_number(high, out),
        None => print_bytes(b"*", out),
    }
}

// Whether an operand stands without parentheses.
fn stands_alone(formula: &Formula) -> bool
    ensures { result ≡ is_alone (tree.tree_of formula.now) }
{
    matches!(
        formula,
        Formula::True(_) | Formula::False(_) | Formula::Atom(..)
    )
}
