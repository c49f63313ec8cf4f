//! Prints the tree of a term, or with numbers in place of some of its subterms.

ghost use Rattle.std.specs.Prelude.{◌≡◌, ◌++◌, ◌∷◌, [], IsSome, IsOkUnless, IfSome, OnOk};
ghost use Rattle.std.specs.Prelude.{OnErr};
ghost use Rattle.std.specs.Io.KnownBytes.{Appends};
ghost use Rattle.rx_term.specs.Tree.{Tree};
ghost use Rattle.rx_term.specs.Store.{tree_at};
ghost use Rattle.rx_term.specs.Kinds.{HasAppl, HasHole};
ghost use Rattle.rx_term.specs.Walks.{held_tree};
ghost use Rattle.rx_text.specs.Canon.{canon, name_text, no_arguments};
ghost use Rattle.rx_text.specs.Output.{contents_of, ReportsFault, ReportsRefusal};
ghost use Rattle.rx_text.specs.Output.{Writes, WritesFront};
ghost use Rattle.rx_text.specs.Written.{AppendsFront};
ghost use Rattle.rx_text.specs.Inner.Jobs.{Adds, IsJob, Leaves, body_size, entry_text, job_size};
ghost use Rattle.rx_text.specs.Inner.Jobs.{job_text, seen, source_of};
ghost use Rattle.rx_text.specs.Numbered.{entry, reference, written};

use crate::faults::{RefusedWrite, WriteFault};
use crate::names::{put_integer, put_name};
use crate::numbers::{NoNumbers, Numbers};
use crate::output::Output;
use itoa::Buffer;
use rx_term::{Kind, Symbol, Term, TermBank};
use std::alloc::Global;
use std::io::Write;

/// A part of the text that is still to be written.
#[derive(Clone, Copy, Drop)]
pub enum Job {
    /// One byte.
    Byte(u8),
    /// A term, or its number if it has one.
    Tree(Term),
    /// A term without its own number.
    Entry(Term),
    /// The annotations of a term in braces, if it has some.
    Notes(Term),
    /// The items of a list, separated by commas.
    Items(Term),
    /// The items of a list, each after a comma.
    Others(Term),
}

/// Writes a whole text, with several calls of the writer if it needs them.
pub fn put<W: Write>(out: &mut W, text: &[u8]) -> Result<(), RefusedWrite>
    ensures written { OnOk result (Appends (W.contents out.old) (W.contents out.new) text.now) }
    ensures front { OnErr result (AppendsFront text.now (W.contents out.old) (W.contents out.new)) }
{
    let mut output = Output::new(out);
    output.put(text)
}

/// Pushes two jobs. `first` is done first.
fn leave(jobs: &mut Vec<Job>, later: Job, first: Job) -> Result<(), WriteFault>
    ensures left { OnOk result (jobs.new.items ≡ jobs.old.items ++ later ∷ first ∷ []) }
    ensures memory { IsOkUnless result WriteFault.Memory }
{
    jobs.push(later)?;
    jobs.push(first)?;
    Ok(())
}

/// Writes a mark and pushes two jobs. `first` is done first.
#[inline]
fn put_mark<W: Write>(
    out: &mut Output<'_, W>,
    mark: u8,
    jobs: &mut Vec<Job>,
    later: Job,
    first: Job,
) -> Result<(), WriteFault>
    ensures left { OnOk result (jobs.new.items ≡ jobs.old.items ++ later ∷ first ∷ []) }
    ensures written { OnOk result (Writes W.contents out.old out.new (mark ∷ [])) }
    ensures front { OnErr result (WritesFront W.contents out.old out.new (mark ∷ [])) }
    ensures reports { ReportsFault out.old out.new result }
{
    leave(jobs, later, first)?;
    out.put(&[mark])?;
    Ok(())
}

/// Writes a name that has arguments, and the opening parenthesis.
#[inline]
fn put_operator<W: Write>(
    out: &mut Output<'_, W>,
    name: &[u8],
    quoted: bool,
) -> Result<(), RefusedWrite>
    ensures written { OnOk result (Writes W.contents out.old out.new
        (name_text name.now quoted ++ 40 ∷ [])) }
    ensures front { OnErr result (WritesFront W.contents out.old out.new
        (name_text name.now quoted ++ 40 ∷ [])) }
    ensures reports { ReportsRefusal out.old out.new result }
{
    put_name(out, name, quoted)?;
    out.put(b"(")
}

/// Writes a name that has no arguments.
#[inline]
fn put_constant<W: Write>(
    out: &mut Output<'_, W>,
    name: &[u8],
    quoted: bool,
) -> Result<(), RefusedWrite>
    ensures written { OnOk result (Writes W.contents out.old out.new
        (name_text name.now quoted ++ no_arguments name.now quoted)) }
    ensures front { OnErr result (WritesFront W.contents out.old out.new
        (name_text name.now quoted ++ no_arguments name.now quoted)) }
    ensures reports { ReportsRefusal out.old out.new result }
{
    if name.is_empty() && !quoted {
        out.put(b"()")
    } else {
        put_name(out, name, quoted)
    }
}

/// Writes a number in a placeholder.
fn put_number<W: Write>(out: &mut Output<'_, W>, number: u32) -> Result<(), RefusedWrite>
    ensures written { OnOk result (Writes W.contents out.old out.new (canon (reference number))) }
    ensures front { OnErr result (WritesFront W.contents out.old out.new
        (canon (reference number))) }
    ensures reports { ReportsRefusal out.old out.new result }
{
    let mut buffer = Buffer::new();
    out.put(b"<")?;
    out.put(buffer.format(number).as_bytes())?;
    out.put(b">")
}

/// Prints the terms of a store, with numbers in place of those that have one.
#[derive(Clone, Copy)]
pub struct Printer<'a, B, N> {
    /// The store.
    pub bank: &'a B,
    /// The numbers.
    pub numbers: N,
}

impl<B: TermBank, N: Numbers> Printer<'_, B, N> {
    /// Writes the start of an application without its annotations, and pushes the rest.
    #[inline]
    fn write_application<W: Write>(
        &self,
        term: Term,
        symbol: Symbol,
        jobs: &mut Vec<Job>,
        out: &mut Output<'_, W>,
    ) -> Result<(), WriteFault>
        requires job { HasAppl (B.store self.now.bank.now) term symbol }
        ensures written { OnOk result (Leaves (source_of B.store N.style self.now)
            (seen [] (entry_text (source_of B.store N.style self.now).style)
            (tree_at (B.store self.now.bank.now) term))
            (seen 1 body_size (tree_at (B.store self.now.bank.now) term))
            (contents_of W.contents out.old) (contents_of W.contents out.new)
            jobs.old.items jobs.new.items) }
        ensures front { OnErr result (WritesFront W.contents out.old out.new
            (seen [] (entry_text (source_of B.store N.style self.now).style)
            (tree_at (B.store self.now.bank.now) term))) }
        ensures reports { ReportsFault out.old out.new result }
    {
        let name = self.bank.name_of(symbol);
        let quoted = self.bank.quoted_of(symbol);
        let args = self.bank.args(term);
        if let Kind::Cons = self.bank.kind(args) {
            leave(jobs, Job::Byte(b')'), Job::Items(args))?;
            Ok(put_operator(out, name, quoted)?)
        } else {
            Ok(put_constant(out, name, quoted)?)
        }
    }

    /// Writes the start of a placeholder without its annotations, and pushes the rest.
    #[inline]
    fn write_placeholder<W: Write>(
        &self,
        term: Term,
        jobs: &mut Vec<Job>,
        out: &mut Output<'_, W>,
    ) -> Result<(), WriteFault>
        requires job { HasHole (B.store self.now.bank.now) term }
        ensures written { OnOk result (Leaves (source_of B.store N.style self.now)
            (seen [] (entry_text (source_of B.store N.style self.now).style)
            (tree_at (B.store self.now.bank.now) term))
            (seen 1 body_size (tree_at (B.store self.now.bank.now) term))
            (contents_of W.contents out.old) (contents_of W.contents out.new)
            jobs.old.items jobs.new.items) }
        ensures front { OnErr result (WritesFront W.contents out.old out.new
            (seen [] (entry_text (source_of B.store N.style self.now).style)
            (tree_at (B.store self.now.bank.now) term))) }
        ensures reports { ReportsFault out.old out.new result }
    {
        let inner = self.bank.inner(term);
        if self.numbers.are_some() {
            jobs.push(Job::Byte(b'>'))?;
            leave(jobs, Job::Byte(b']'), Job::Tree(inner))?;
            Ok(out.put(b"<[")?)
        } else {
            put_mark(out, b'<', jobs, Job::Byte(b'>'), Job::Tree(inner))
        }
    }

    /// Writes the start of a term without its annotations, and pushes the rest.
    #[inline(always)]
    fn write_body<W: Write>(
        &self,
        term: Term,
        jobs: &mut Vec<Job>,
        out: &mut Output<'_, W>,
    ) -> Result<(), WriteFault>
        requires job { IsSome (tree_at (B.store self.now.bank.now) term) }
        ensures written { OnOk result (Leaves (source_of B.store N.style self.now)
            (seen [] (entry_text (source_of B.store N.style self.now).style)
            (tree_at (B.store self.now.bank.now) term))
            (seen 1 body_size (tree_at (B.store self.now.bank.now) term))
            (contents_of W.contents out.old) (contents_of W.contents out.new)
            jobs.old.items jobs.new.items) }
        ensures front { OnErr result (WritesFront W.contents out.old out.new
            (seen [] (entry_text (source_of B.store N.style self.now).style)
            (tree_at (B.store self.now.bank.now) term))) }
        ensures reports { ReportsFault out.old out.new result }
    {
        match self.bank.kind(term) {
            Kind::Int(value) => Ok(put_integer(out, value)?),
            Kind::Nil => Ok(out.put(b"[]")?),
            Kind::Cons => put_mark(out, b'[', jobs, Job::Byte(b']'), Job::Items(term)),
            Kind::Appl(symbol) => self.write_application(term, symbol, jobs, out),
            Kind::Hole => self.write_placeholder(term, jobs, out),
        }
    }

    /// Writes the start of a term without its own number, and pushes the rest.
    #[inline(always)]
    fn write_tree<W: Write>(
        &self,
        term: Term,
        jobs: &mut Vec<Job>,
        out: &mut Output<'_, W>,
    ) -> Result<(), WriteFault>
        requires job { IsJob (B.store self.now.bank.now) (Job.Entry term) }
        ensures written { OnOk result (Leaves (source_of B.store N.style self.now)
            (job_text (source_of B.store N.style self.now) (Job.Entry term))
            (job_size (B.store self.now.bank.now) (Job.Entry term))
            (contents_of W.contents out.old) (contents_of W.contents out.new)
            jobs.old.items jobs.new.items) }
        ensures front { OnErr result (WritesFront W.contents out.old out.new
            (job_text (source_of B.store N.style self.now) (Job.Entry term))) }
        ensures reports { ReportsFault out.old out.new result }
    {
        jobs.push(Job::Notes(term))?;
        self.write_body(term, jobs, out)
    }

    /// Writes the number of a term if it has one; otherwise the start of the term, and pushes the
    /// rest.
    #[inline(always)]
    fn write_numbered<W: Write>(
        &self,
        term: Term,
        jobs: &mut Vec<Job>,
        out: &mut Output<'_, W>,
    ) -> Result<(), WriteFault>
        requires job { IsJob (B.store self.now.bank.now) (Job.Tree term) }
        requires numbers { N.are_for self.now.numbers (B.store self.now.bank.now) }
        ensures written { OnOk result (Leaves (source_of B.store N.style self.now)
            (job_text (source_of B.store N.style self.now) (Job.Tree term))
            (job_size (B.store self.now.bank.now) (Job.Tree term))
            (contents_of W.contents out.old) (contents_of W.contents out.new)
            jobs.old.items jobs.new.items) }
        ensures front { OnErr result (WritesFront W.contents out.old out.new
            (job_text (source_of B.store N.style self.now) (Job.Tree term))) }
        ensures reports { ReportsFault out.old out.new result }
    {
        match self.numbers.number_of(term) {
            Some(number) => Ok(put_number(out, number)?),
            None => self.write_tree(term, jobs, out),
        }
    }

    /// Writes the opening brace of the annotations of a term, if it has some, and pushes the rest.
    fn write_notes<W: Write>(
        &self,
        term: Term,
        jobs: &mut Vec<Job>,
        out: &mut Output<'_, W>,
    ) -> Result<(), WriteFault>
        requires job { IsJob (B.store self.now.bank.now) (Job.Notes term) }
        ensures written { OnOk result (Leaves (source_of B.store N.style self.now)
            (job_text (source_of B.store N.style self.now) (Job.Notes term))
            (job_size (B.store self.now.bank.now) (Job.Notes term))
            (contents_of W.contents out.old) (contents_of W.contents out.new)
            jobs.old.items jobs.new.items) }
        ensures front { OnErr result (WritesFront W.contents out.old out.new
            (job_text (source_of B.store N.style self.now) (Job.Notes term))) }
        ensures reports { ReportsFault out.old out.new result }
    {
        let Some(anns) = self.bank.anns(term) else {
            return Ok(());
        };
        put_mark(out, b'{', jobs, Job::Byte(b'}'), Job::Items(anns))
    }

    /// Pushes the items of a list.
    #[inline(always)]
    fn leave_items(&self, list: Term, jobs: &mut Vec<Job>) -> Result<(), WriteFault>
        requires { IsJob (B.store self.now.bank.now) (Job.Items list) }
        ensures left { OnOk result (Adds (source_of B.store N.style self.now)
            (job_text (source_of B.store N.style self.now) (Job.Items list))
            (job_size (B.store self.now.bank.now) (Job.Items list))
            jobs.old.items jobs.new.items) }
        ensures memory { IsOkUnless result WriteFault.Memory }
    {
        if let Kind::Cons = self.bank.kind(list) {
            leave(
                jobs,
                Job::Others(self.bank.tail(list)),
                Job::Tree(self.bank.head(list)),
            )
        } else {
            Ok(())
        }
    }

    /// Writes the comma before the first item of a list, and pushes the rest.
    fn write_others<W: Write>(
        &self,
        list: Term,
        jobs: &mut Vec<Job>,
        out: &mut Output<'_, W>,
    ) -> Result<(), WriteFault>
        requires job { IsJob (B.store self.now.bank.now) (Job.Others list) }
        ensures written { OnOk result (Leaves (source_of B.store N.style self.now)
            (job_text (source_of B.store N.style self.now) (Job.Others list))
            (job_size (B.store self.now.bank.now) (Job.Others list))
            (contents_of W.contents out.old) (contents_of W.contents out.new)
            jobs.old.items jobs.new.items) }
        ensures front { OnErr result (WritesFront W.contents out.old out.new
            (job_text (source_of B.store N.style self.now) (Job.Others list))) }
        ensures reports { ReportsFault out.old out.new result }
    {
        if let Kind::Cons = self.bank.kind(list) {
            let others = Job::Others(self.bank.tail(list));
            put_mark(out, b',', jobs, others, Job::Tree(self.bank.head(list)))
        } else {
            Ok(())
        }
    }

    /// Writes the start of a job, and pushes the rest of it.
    fn write_job<W: Write>(
        &self,
        job: Job,
        jobs: &mut Vec<Job>,
        out: &mut Output<'_, W>,
    ) -> Result<(), WriteFault>
        requires job { IsJob (B.store self.now.bank.now) job }
        requires numbers { N.are_for self.now.numbers (B.store self.now.bank.now) }
        ensures written { OnOk result (Leaves (source_of B.store N.style self.now)
            (job_text (source_of B.store N.style self.now) job)
            (job_size (B.store self.now.bank.now) job)
            (contents_of W.contents out.old) (contents_of W.contents out.new)
            jobs.old.items jobs.new.items) }
        ensures front { OnErr result (WritesFront W.contents out.old out.new
            (job_text (source_of B.store N.style self.now) job)) }
        ensures reports { ReportsFault out.old out.new result }
    {
        match job {
            Job::Byte(byte) => Ok(out.put(&[byte])?),
            Job::Tree(term) => self.write_numbered(term, jobs, out),
            Job::Entry(term) => self.write_tree(term, jobs, out),
            Job::Notes(term) => self.write_notes(term, jobs, out),
            Job::Items(list) => self.leave_items(list, jobs),
            Job::Others(list) => self.write_others(list, jobs, out),
        }
    }

    /// Writes the text of a job.
    fn write_all<W: Write>(
        &self,
        alloc: Global,
        job: Job,
        out: &mut Output<'_, W>,
    ) -> Result<(), WriteFault>
        requires job { IsJob (B.store self.now.bank.now) job }
        requires numbers { N.are_for self.now.numbers (B.store self.now.bank.now) }
        ensures written { OnOk result (Writes W.contents out.old out.new
            (job_text (source_of B.store N.style self.now) job)) }
        ensures front { OnErr result (WritesFront W.contents out.old out.new
            (job_text (source_of B.store N.style self.now) job)) }
        ensures reports { ReportsFault out.old out.new result }
    {
        let mut jobs = Vec::new(alloc);
        jobs.push(job)?;
        while let Some(next) = jobs.pop() {
            self.write_job(next, &mut jobs, out)?;
        }
        Ok(())
    }

    /// Prints a term, or its number if it has one. `Memory` is returned if an allocation failed,
    /// `Write` if the writer failed. Takes time in proportion to the text, and to the time of
    /// `number_of`.
    pub fn write_term<W: Write>(
        &self,
        alloc: Global,
        t: Term,
        out: &mut Output<'_, W>,
    ) -> Result<(), WriteFault>
        requires held { IsSome (tree_at (B.store self.now.bank.now) t) }
        requires numbers { N.are_for self.now.numbers (B.store self.now.bank.now) }
        ensures written { OnOk result (Writes W.contents out.old out.new
            (canon (written (N.style self.now.numbers (B.store self.now.bank.now))
            (held_tree (B.store self.now.bank.now) t)))) }
        ensures front { OnErr result (WritesFront W.contents out.old out.new
            (canon (written (N.style self.now.numbers (B.store self.now.bank.now))
            (held_tree (B.store self.now.bank.now) t)))) }
        ensures reports { ReportsFault out.old out.new result }
    {
        self.write_all(alloc, Job::Tree(t), out)
    }

    /// Prints a term with numbers inside of it, but not its own. Fails like
    /// [`write_term`](Printer::write_term).
    pub fn write_entry<W: Write>(
        &self,
        alloc: Global,
        t: Term,
        out: &mut Output<'_, W>,
    ) -> Result<(), WriteFault>
        requires held { IsSome (tree_at (B.store self.now.bank.now) t) }
        requires numbers { N.are_for self.now.numbers (B.store self.now.bank.now) }
        ensures written { OnOk result (Writes W.contents out.old out.new
            (canon (entry (N.style self.now.numbers (B.store self.now.bank.now))
            (held_tree (B.store self.now.bank.now) t)))) }
        ensures front { OnErr result (WritesFront W.contents out.old out.new
            (canon (entry (N.style self.now.numbers (B.store self.now.bank.now))
            (held_tree (B.store self.now.bank.now) t)))) }
        ensures reports { ReportsFault out.old out.new result }
    {
        self.write_all(alloc, Job::Entry(t), out)
    }
}

/// Prints the tree of a term. `Memory` is returned if an allocation failed, `Write` if the writer
/// failed; the output is then a prefix of the printed form. Takes time in proportion to the text.
pub fn write<B: TermBank, W: Write>(
    alloc: Global,
    bank: &B,
    t: Term,
    out: &mut W,
) -> Result<(), WriteFault>
    requires { IsSome (tree_at (B.store bank.now) t) }
    ensures written { OnOk result (IfSome (tree_at (B.store bank.now) t)
        (λ u. Appends (W.contents out.old) (W.contents out.new) (canon u))) }
    ensures front { OnErr result (IfSome (tree_at (B.store bank.now) t)
        (λ u. AppendsFront (canon u) (W.contents out.old) (W.contents out.new))) }
{
    let mut output = Output::new(out);
    write_to(alloc, bank, t, &mut output)
}

/// Prints the tree of a term to an output that may have been written to before. After a failure the
/// writer is not called again.
pub fn write_to<B: TermBank, W: Write>(
    alloc: Global,
    bank: &B,
    t: Term,
    out: &mut Output<'_, W>,
) -> Result<(), WriteFault>
    requires held { IsSome (tree_at (B.store bank.now) t) }
    ensures written { OnOk result (IfSome (tree_at (B.store bank.now) t)
        (λ u. Writes W.contents out.old out.new (canon u))) }
    ensures front { OnErr result (IfSome (tree_at (B.store bank.now) t)
        (λ u. WritesFront W.contents out.old out.new (canon u))) }
    ensures reports { ReportsFault out.old out.new result }
{
    let printer = Printer {
        bank,
        numbers: NoNumbers,
    };
    printer.write_term(alloc, t, out)
}
