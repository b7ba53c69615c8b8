//! From texts to clauses.

ghost use Rattle.std.specs.Prelude.{◌≡◌, ℕ, IfOk, IfErr, IfSome, IfNone, MatchBool, None, [], ◌∷◌, map};
ghost use Rattle.eco_trace.specs.Clauses.{Clauses};
ghost use Rattle.eco_prooftext.specs.CnfFile.{AreLines, IsCnfText};
ghost use Rattle.eco_prooftext.specs.Reading.{Begins, Heads, Follows, Leads, IsStuck, IsOnly, AreRefused, IsRefused};

use crate::error::CnfError;
use crate::words::{header, is_comment, is_end, lines_of, literal, words_of};
use eco_meaning::OutOfMemory;
use eco_trace::{Clause, Cnf, Lit};
use std::alloc::Global;
use std::mem;

/// What is read behind the header.
#[derive(Drop)]
pub(crate) struct Body {
    alloc: Global,
    /// The clauses that are closed.
    cnf: Cnf,
    /// How many clauses the header says there are.
    count: u64,
    /// The literals of the clause that is open.
    lits: Vec<Lit>,
}

impl Body {
    ghost use Rattle.std.specs.Prelude.{◌≡◌, ◌≤◌, [], ◌∷◌, List, ℕ, IfOk, IfSome, IfNone, MatchBool, codes, map};
    ghost use Rattle.eco_trace.specs.declared.clause.Lit.{Lit as Literal};
    ghost use Rattle.eco_trace.specs.Clauses.{Clauses};
    ghost use Rattle.eco_prooftext.specs.CnfFile.{Word, IsNext, IsLiteral, pieces_of};
    ghost use Rattle.eco_prooftext.specs.Reading.{Closes, Opens, Continues, Leads, IsStuck, IsOnly};

    /// Ends the clause that is open; false where the literals make none.
    fn close(&mut self) -> Result<bool, OutOfMemory>
        ensures { IfOk result (λ fits. MatchBool fits (Closes self.old self.new)
            ((clause : List Literal) → IsNext self.old.cnf.vars self.old.lits.items clause → ⊥)) }
    {
        let lits = mem::replace(&mut self.lits, Vec::new(self.alloc));
        match Clause::new(self.alloc, lits)? {
            None => Ok(false),
            Some(clause) => {
                let added = self.cnf.try_add(clause)?;
                Ok(added)
            }
        }
    }

    /// Takes a literal's word; false where it is none.
    fn open(&mut self, word: &[u8]) -> Result<bool, OutOfMemory>
        ensures { IfOk result (λ fits. MatchBool fits (Opens word.now self.old self.new)
            ((lit : Literal) → IsLiteral self.old.cnf.vars word.now lit → ⊥)) }
    {
        match literal(self.cnf.vars(), word) {
            None => Ok(false),
            Some(lit) => {
                self.lits.push(lit)?;
                Ok(true)
            }
        }
    }

    /// Takes a word.
    fn take_word(&mut self, word: &[u8]) -> Result<bool, OutOfMemory>
        ensures { IfOk result (λ fits. MatchBool fits (Leads Continues self.old (Word word.now ∷ []) self.new)
            (IsStuck Continues self.old (Word word.now ∷ []))) }
    {
        if is_end(word) {
            self.close()
        } else {
            self.open(word)
        }
    }

    /// Takes words.
    fn take_words(&mut self, words: &[&[u8]]) -> Result<bool, OutOfMemory>
        ensures { IfOk result (λ fits. MatchBool fits
            (Leads Continues self.old (map (λ word. Word word.now) words.now) self.new)
            (IsStuck Continues self.old (map (λ word. Word word.now) words.now))) }
    {
        for word in words {
            if !self.take_word(word)? {
                return Ok(false);
            }
        }
        Ok(true)
    }

    /// Takes a line.
    fn take_line(&mut self, line: &[u8]) -> Result<bool, OutOfMemory>
        ensures { IfOk result (λ fits. MatchBool fits (Leads Continues self.old (pieces_of line.now) self.new)
            (IsStuck Continues self.old (pieces_of line.now))) }
    {
        if is_comment(line) {
            Ok(self.lits.is_empty())
        } else {
            let words = words_of(self.alloc, line)?;
            self.take_words(words.as_slice())
        }
    }

    /// The clauses, where none is open and there are as many as the header says.
    fn finish(self) -> Option<Cnf>
        ensures some { IfSome result (IsOnly (Continues self [])) }
        ensures none { IfNone result ((c : Clauses) → Continues self [] c → ⊥) }
    {
        let closed = self.cnf.clauses().len() as u64;
        if self.lits.is_empty() && closed == self.count {
            Some(self.cnf)
        } else {
            None
        }
    }
}

/// The body behind a header of these words.
fn begun(alloc: Global, words: &[&[u8]]) -> Option<Body>
    ensures some { IfSome result (Begins (map (λ word. word.now) words.now)) }
    ensures none { IfNone result ((vars count : ℕ) → Heads (map (λ word. word.now) words.now) vars count → ⊥) }
{
    let (vars, count) = header(words)?;
    let cnf = Cnf::new(alloc, vars);
    let lits = Vec::new(alloc);
    Some(Body {
        alloc,
        cnf,
        count,
        lits,
    })
}

/// Takes a line where no header was yet.
fn begin(alloc: Global, body: &mut Option<Body>, line: &[u8]) -> Result<bool, OutOfMemory>
    requires { body.old ≡ None }
    ensures { IfOk result (λ fits. MatchBool fits (Leads Follows body.old (line.now ∷ []) body.new)
        (IsStuck Follows body.old (line.now ∷ []))) }
{
    if is_comment(line) {
        return Ok(true);
    }
    let words = words_of(alloc, line)?;
    let heads = words.as_slice();
    if heads.is_empty() {
        return Ok(true);
    }
    *body = begun(alloc, heads);
    Ok(body.is_some())
}

/// Takes a line.
fn take_line(alloc: Global, body: &mut Option<Body>, line: &[u8]) -> Result<bool, OutOfMemory>
    ensures { IfOk result (λ fits. MatchBool fits (Leads Follows body.old (line.now ∷ []) body.new)
        (IsStuck Follows body.old (line.now ∷ []))) }
{
    match body {
        None => begin(alloc, body, line),
        Some(body) => body.take_line(line),
    }
}

/// Takes lines.
fn take_lines(alloc: Global, lines: &[&[u8]]) -> Result<Option<Body>, CnfError>
    ensures ok { IfOk result (Leads Follows None (map (λ line. line.now) lines.now)) }
    ensures fault { IfErr result (AreRefused (map (λ line. line.now) lines.now)) }
{
    let mut body = None;
    for (place, line) in lines.iter().enumerate() {
        if !take_line(alloc, &mut body, line)? {
            return Err(CnfError::CnfSyntax(place as u64 + 1));
        }
    }
    Ok(body)
}

/// The clauses of a text that was read.
fn finished(body: Option<Body>) -> Option<Cnf>
    ensures some { IfSome result (IsOnly (Follows body [])) }
    ensures none { IfNone result ((c : Clauses) → Follows body [] c → ⊥) }
{
    match body {
        None => None,
        Some(body) => body.finish(),
    }
}

/// The clauses that the lines of a text give.
fn read_lines(alloc: Global, lines: &[&[u8]]) -> Result<Cnf, CnfError>
    ensures ok { IfOk result (IsOnly (AreLines (map (λ line. line.now) lines.now))) }
    ensures fault { IfErr result (AreRefused (map (λ line. line.now) lines.now)) }
{
    let body = take_lines(alloc, lines)?;
    match finished(body) {
        None => Err(CnfError::CnfSyntax(lines.len() as u64)),
        Some(cnf) => Ok(cnf),
    }
}

/// The clauses of a text in DIMACS CNF.
///
/// # Errors
///
/// `CnfSyntax(line)` exactly where the text is none: the line is where the first error was found, the last one where a
/// clause is open at the end or their number isn't what the header says. `OutOfMemory` only for want of memory.
pub fn read_cnf(alloc: Global, bytes: &[u8]) -> Result<Cnf, CnfError>
    ensures ok { IfOk result (IsOnly (IsCnfText bytes.now)) }
    ensures refused { IfErr result (IsRefused bytes.now) }
{
    let lines = lines_of(alloc, bytes)?;
    read_lines(alloc, lines.as_slice())
}
