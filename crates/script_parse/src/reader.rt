//! A script below its header, read line by line.

ghost use Rattle.std.specs.Prelude.{◌≡◌, ◌<◌, not, false, true, length, Some, IfOk};
ghost use Rattle.pct_ask.specs.Words.{is_name, is_among};
ghost use Rattle.pct_ask.specs.NameLists.{list_of, all_names};
ghost use Rattle.script_tree.specs.Fitting.{IsScript};
ghost use Rattle.script_tree.specs.Fitting as fitting;
ghost use Rattle.script_tree.specs.Faults as faults;
ghost use Rattle.script_tree.specs.ScriptSeen.{plain_script};
ghost use Rattle.script_tree.specs.Seen.{statement, block as tree_of_block};
ghost use Rattle.script_parse.specs.Lookahead.{place_ahead};
ghost use Rattle.script_parse.specs.Seen.{all_seen};
ghost use Rattle.script_parse.specs.SeenForms.{seen_form};
ghost use Rattle.script_parse.specs.SeenParts.{seen_opening, seen_reader};
ghost use Rattle.script_parse.specs.Spellings.{spelled_tree};
ghost use Rattle.script_parse.specs.Part.{If, While};
ghost use Rattle.script_parse.specs.Lawful.{names_lawful, value_lawful};
ghost use Rattle.script_parse.specs.Lawful.{HasSmallNumbers, NumbersAreSmall};
ghost use Rattle.script_parse.specs.Reading as reading;
ghost use Rattle.pct_ask.specs.declared.limits.TheConstants.{MAX_OBJECTS};

use crate::ahead::Lookahead;
use crate::begin::{begins, names_thread, opens};
use crate::blocks::{OpenBlock, Opening, depth, is_closed, is_in_if, open_block, push_statement};
use crate::form::Form;
use crate::number::first_value;
use crate::range::is_out_of_range;
use crate::spelling::{Spelling, expression_at};
use crate::statement::{place_in, statement_on};
use crate::token::Token;
use pct_ask::{MAX_OBJECTS, MAX_THREADS, NameKind, Names, NumberList};
use script_tree::{Block, Script, ScriptFault, Stmt, ThreadText};
use std::alloc::{AllocError as NoMemory, Global};

/// What was read of a script.
#[derive(Drop)]
pub struct Reader {
    version: u32,
    names: Names,
    vars: NumberList,
    sems: NumberList,
    barriers: NumberList,
    threads: Vec<ThreadText>,
    open_blocks: Vec<OpenBlock>,
}

impl Reader {
    pub fn new(alloc: Global, version: u32) -> Self
        ensures { seen_reader result ≡ reading.first_part version }
    {
        Reader {
            version,
            names: Names::new(alloc),
            vars: NumberList::new(alloc),
            sems: NumberList::new(alloc),
            barriers: NumberList::new(alloc),
            threads: Vec::new(alloc),
            open_blocks: Vec::new(alloc),
        }
    }

    pub fn version(&self) -> u32
        ensures { result ≡ self.now.version }
    {
        self.version
    }

    fn has_thread(&self) -> bool
        ensures { result ≡ not (reading.is_empty self.now.names.threads) }
    {
        self.names.count(NameKind::Thread) > 0
    }

    fn may_stand(&self, form: &Form<'_>) -> bool
        ensures { result
            ≡ faults.may_stand (reading.so_far_in (seen_reader self.now)) (seen_form form.now) }
    {
        match form {
            Form::Plain { .. } | Form::Valued { .. } => !self.has_thread(),
            Form::Thread { .. } => is_closed(&self.open_blocks),
            Form::End | Form::Else => true,
            _ => !is_closed(&self.open_blocks),
        }
    }

    fn is_known_name(&self, ahead: &Lookahead<'_>, kind: NameKind, name: &[u8]) -> bool
        ensures { result
            ≡ reading.is_known_name self.now.names (place_ahead ahead.now) kind name.now }
    {
        place_in(&self.names, ahead, kind, name).is_some()
    }

    fn uses_unknown(&self, ahead: &Lookahead<'_>, form: &Form<'_>) -> bool
        ensures { result
            ≡ faults.uses_unknown (reading.is_known_name self.now.names (place_ahead ahead.now))
            (seen_form form.now) }
    {
        match form {
            Form::On { verb, object } => !self.is_known_name(ahead, verb.row().kind, object),
            Form::Into { verb, object, .. } => !self.is_known_name(ahead, verb.row().kind, object),
            Form::Write { var, .. } | Form::Add { var, .. } | Form::Cas { var, .. } => {
                !self.is_known_name(ahead, NameKind::Var, var)
            }
            Form::Wait { cond, mutex } => {
                !(self.is_known_name(ahead, NameKind::Cond, cond)
                    && self.is_known_name(ahead, NameKind::Mutex, mutex))
            }
            _ => false,
        }
    }

    fn declares_again(&self, form: &Form<'_>) -> bool
        ensures { result
            ≡ faults.declares_again (reading.so_far_in (seen_reader self.now))
            (seen_form form.now) }
    {
        match form {
            Form::Plain { name, .. } | Form::Valued { name, .. } | Form::Thread { name } => {
                self.names.contains(name)
            }
            _ => false,
        }
    }

    /// Whether a block is open behind a line with these tokens.
    fn leaves_open(&self, tokens: &[Token<'_>]) -> bool
        ensures { result
            ≡ faults.leaves_open (reading.so_far_in (seen_reader self.now)) (all_seen tokens.now) }
    {
        if opens(tokens) {
            true
        } else if begins(b"end", tokens) {
            depth(&self.open_blocks) >= 2
        } else {
            !is_closed(&self.open_blocks)
        }
    }

    fn closes_nothing(&self, form: &Form<'_>) -> bool
        ensures { result
            ≡ faults.closes_nothing (reading.so_far_in (seen_reader self.now))
            (seen_form form.now) }
    {
        match form {
            Form::End => is_closed(&self.open_blocks),
            Form::Else => !is_in_if(&self.open_blocks),
            _ => false,
        }
    }

    /// Whether no thread began up to a line with these tokens.
    fn lacks_thread(&self, tokens: &[Token<'_>]) -> bool
        ensures { result
            ≡ faults.lacks_thread (reading.so_far_in (seen_reader self.now)) (all_seen tokens.now) }
    {
        !names_thread(tokens) && !self.has_thread()
    }

    fn most_threads(&self) -> u32
        ensures { result ≡ fitting.most_threads self.now.version }
    {
        if self.version >= 3 {
            MAX_THREADS as u32
        } else {
            16
        }
    }

    fn is_too_many(&self, form: &Form<'_>) -> bool
        ensures { result
            ≡ faults.is_too_many (reading.so_far_in (seen_reader self.now)) (seen_form form.now) }
    {
        match form {
            Form::Thread { .. } => self.names.count(NameKind::Thread) >= self.most_threads(),
            Form::Plain { kind, .. } | Form::Valued { kind, .. } => self.names.count(*kind)
                >= MAX_OBJECTS as u32,
            Form::If { .. } | Form::While { .. } => depth(&self.open_blocks) >= 33,
            _ => false,
        }
    }

    /// The first fault of a line of this form; `last` tells whether it is the last line.
    pub fn fault_of(
        &self,
        ahead: &Lookahead<'_>,
        last: bool,
        tokens: &[Token<'_>],
        form: &Form<'_>,
    ) -> Option<ScriptFault>
        ensures { result
            ≡ reading.form_fault (seen_reader self.now) (place_ahead ahead.now) last
            (all_seen tokens.now) (seen_form form.now) }
    {
        if !self.may_stand(form) {
            Some(ScriptFault::BadStatement)
        } else if self.uses_unknown(ahead, form) {
            Some(ScriptFault::UnknownName)
        } else if self.declares_again(form) {
            Some(ScriptFault::TwiceNamed)
        } else if is_out_of_range(tokens, form) {
            Some(ScriptFault::NumberRange)
        } else if last && self.leaves_open(tokens) {
            Some(ScriptFault::NoEnd)
        } else if self.closes_nothing(form) {
            Some(ScriptFault::StrayEnd)
        } else if last && self.lacks_thread(tokens) {
            Some(ScriptFault::NoThread)
        } else if self.is_too_many(form) {
            Some(ScriptFault::TooMany)
        } else {
            None
        }
    }

    /// The fault of a blank line; only the last one has any.
    pub fn blank_fault(&self, last: bool) -> Option<ScriptFault>
        ensures { result ≡ reading.blank_fault (seen_reader self.now) last }
    {
        if last && !is_closed(&self.open_blocks) {
            Some(ScriptFault::NoEnd)
        } else if last && !self.has_thread() {
            Some(ScriptFault::NoThread)
        } else {
            None
        }
    }

    /// Takes a line that has no fault.
    pub fn take(
        self,
        alloc: Global,
        ahead: &Lookahead<'_>,
        line: u32,
        form: &Form<'_>,
    ) -> Result<Reader, NoMemory>
        requires lawful { names_lawful (seen_form form.now) ≡ true }
        requires fits { value_lawful (seen_form form.now) ≡ true }
        requires small { NumbersAreSmall (seen_form form.now) }
        requires fresh { faults.declares_again (reading.so_far_in (seen_reader self))
            (seen_form form.now)
            ≡ false }
        requires room { faults.is_too_many (reading.so_far_in (seen_reader self))
            (seen_form form.now)
            ≡ false }
        ensures { IfOk result (λ r.
            seen_reader r
            ≡ reading.with_form (seen_reader self) (place_ahead ahead.now) line
            (seen_form form.now)) }
    {
        match form {
            Form::Plain { kind, name } => self.with_name(alloc, *kind, name),
            Form::Valued {
                kind,
                name,
                minus,
                digits,
            } => {
                let value = first_value(*kind, *minus, digits);
                self.with_name(alloc, *kind, name)?
                    .with_first_value(*kind, value)
            }
            Form::Thread { name } => self
                .with_name(alloc, NameKind::Thread, name)?
                .with_block(alloc, Opening::Thread { line }),
            Form::If { test } => self.with_if(alloc, line, test),
            Form::While { test } => self.with_while(alloc, line, test),
            Form::End => self.with_end(line),
            Form::Else => self.with_else(alloc, line),
            form => self.with_statement(alloc, ahead, line, form),
        }
    }

    fn with_name(mut self, alloc: Global, kind: NameKind, name: &[u8]) -> Result<Reader, NoMemory>
        requires lawful { is_name 1 name.now ≡ true }
        requires fresh { is_among name.now (all_names self.names) ≡ false }
        requires room { length (list_of kind self.names) < MAX_OBJECTS }
        ensures { IfOk result (λ r.
            seen_reader r ≡ reading.with_declared (seen_reader self) kind name.now) }
    {
        self.names.add(alloc, kind, name)?;
        Ok(self)
    }

    fn with_first_value(mut self, kind: NameKind, value: i64) -> Result<Reader, NoMemory>
        ensures { IfOk result (λ r.
            seen_reader r ≡ reading.with_first_value kind value (seen_reader self)) }
    {
        match kind {
            NameKind::Var => self.vars.try_push(value)?,
            NameKind::Sem => self.sems.try_push(value)?,
            NameKind::Barrier => self.barriers.try_push(value)?,
            _ => {}
        }
        Ok(self)
    }

    fn with_block(mut self, alloc: Global, opening: Opening) -> Result<Reader, NoMemory>
        ensures { IfOk result (λ r.
            seen_reader r ≡ reading.with_block (seen_reader self) (seen_opening opening)) }
    {
        open_block(alloc, &mut self.open_blocks, opening)?;
        Ok(self)
    }

    fn with_if(self, alloc: Global, line: u32, test: &Spelling<'_>) -> Result<Reader, NoMemory>
        requires { HasSmallNumbers (spelled_tree test.now) }
        ensures { IfOk result (λ r.
            seen_reader r
            ≡ reading.with_block (seen_reader self) (If line (spelled_tree test.now))) }
    {
        let test = expression_at(alloc, test)?;
        self.with_block(alloc, Opening::If { line, test })
    }

    fn with_while(self, alloc: Global, line: u32, test: &Spelling<'_>) -> Result<Reader, NoMemory>
        requires { HasSmallNumbers (spelled_tree test.now) }
        ensures { IfOk result (λ r.
            seen_reader r
            ≡ reading.with_block (seen_reader self) (While line (spelled_tree test.now))) }
    {
        let test = expression_at(alloc, test)?;
        self.with_block(alloc, Opening::While { line, test })
    }

    /// Closes the innermost block.
    #[tactic(auto, using(script_tree::proofs::laws::SeenParts::seen_laws))]
    fn with_end(mut self, line: u32) -> Result<Reader, NoMemory>
        ensures { IfOk result (λ r.
            seen_reader r
            ≡ reading.with_end (seen_reader self) (seen_reader self).open_blocks line) }
    {
        let Some(block) = self.open_blocks.pop() else {
            return Ok(self);
        };
        let OpenBlock { opening, stmts } = block;
        self.closed_block(
            opening,
            Block {
                stmts,
                end_line: line,
            },
        )
    }

    #[tactic(auto, using(script_tree::proofs::laws::SeenParts::seen_laws))]
    fn closed_block(mut self, opening: Opening, block: Block) -> Result<Reader, NoMemory>
        ensures { IfOk result (λ r.
            seen_reader r
            ≡ reading.closed_block (seen_reader self) (seen_opening opening)
            (tree_of_block block)) }
    {
        match opening {
            Opening::Thread { line } => {
                self.threads.push(ThreadText { line, body: block })?;
                Ok(self)
            }
            Opening::If { line, test } => self.part_with_statement(Stmt::If {
                line,
                test,
                then: block,
                otherwise: None,
            }),
            Opening::Else { line, test, first } => self.part_with_statement(Stmt::If {
                line,
                test,
                then: first,
                otherwise: Some(block),
            }),
            Opening::While { line, test } => self.part_with_statement(Stmt::While {
                line,
                test,
                body: block,
            }),
        }
    }

    /// Takes a line that opens and closes no block, with the statement that it has, if any.
    fn with_statement(
        self,
        alloc: Global,
        ahead: &Lookahead<'_>,
        line: u32,
        form: &Form<'_>,
    ) -> Result<Reader, NoMemory>
        requires { NumbersAreSmall (seen_form form.now) }
        ensures { IfOk result (λ r.
            seen_reader r
            ≡ reading.part_with_statement (seen_reader self)
            (reading.statement_on self.names (place_ahead ahead.now) line (seen_form form.now))) }
    {
        match statement_on(alloc, &self.names, ahead, line, form)? {
            None => Ok(self),
            Some(stmt) => self.part_with_statement(stmt),
        }
    }

    fn part_with_statement(mut self, stmt: Stmt) -> Result<Reader, NoMemory>
        ensures { IfOk result (λ r.
            seen_reader r
            ≡ reading.part_with_statement (seen_reader self) (Some (statement stmt))) }
    {
        push_statement(&mut self.open_blocks, stmt)?;
        Ok(self)
    }

    /// Closes the first block of an `if`, and begins its `else`.
    #[tactic(auto, using(script_tree::proofs::laws::SeenParts::seen_laws))]
    fn with_else(mut self, alloc: Global, line: u32) -> Result<Reader, NoMemory>
        ensures { IfOk result (λ r.
            seen_reader r
            ≡ reading.with_else (seen_reader self) (seen_reader self).open_blocks line) }
    {
        let Some(block) = self.open_blocks.pop() else {
            return Ok(self);
        };
        let OpenBlock { opening, stmts } = block;
        match opening {
            Opening::If {
                line: first_line,
                test,
            } => {
                let first = Block {
                    stmts,
                    end_line: line,
                };
                self.with_block(
                    alloc,
                    Opening::Else {
                        line: first_line,
                        test,
                        first,
                    },
                )
            }
            opening => {
                self.open_blocks.push(OpenBlock { opening, stmts })?;
                Ok(self)
            }
        }
    }

    /// The script, where the last line was read.
    pub fn finish(self) -> Script
        requires { IsScript (reading.script_of (seen_reader self)) }
        ensures { plain_script result ≡ reading.script_of (seen_reader self) }
    {
        let Reader {
            version,
            names,
            vars,
            sems,
            barriers,
            threads,
            ..
        } = self;
        Script {
            version,
            names,
            vars,
            sems,
            barriers,
            threads,
        }
    }
}
