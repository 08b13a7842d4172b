// Certificates as texts.
use directive_run::{Certified, CertifyRow};
use kit_text::{ShownThread, ShownVerdict};
use pct_ask::Names;
use std::fmt;
use std::fmt::{Display, Formatter, Write};

/// A certificate as a text, as `pct certify` writes it. A thread that has no name is told by its
/// number, from 0, behind a `#`.
#[derive(Clone, Copy)]
pub struct ShownCertificate<'a> {
    pub certified: &'a Certified,
    pub names: &'a Names,
}

/// The threads of an order, each behind a space.
#[derive(Clone, Copy)]
struct ShownOrder<'a> {
    order: &'a [u32],
    names: &'a Names,
}

impl Display for ShownOrder<'_> {
    fn fmt<W: Write>(&self, f: &mut Formatter<W>) -> fmt::Result {
        let names = self.names;
        for thread in self.order {
            let thread = ShownThread {
                thread: *thread,
                names,
            };
            write!(f, " {thread}")?;
        }
        Ok(())
    }
}

/// A row of a certificate, on a line.
#[derive(Clone, Copy)]
struct ShownRow<'a> {
    row: &'a CertifyRow,
    names: &'a Names,
}

impl Display for ShownRow<'_> {
    fn fmt<W: Write>(&self, f: &mut Formatter<W>) -> fmt::Result {
        let order = ShownOrder {
            order: self.row.order.as_slice(),
            names: self.names,
        };
        write!(f, "order{order} points")?;
        for point in self.row.points.as_slice() {
            write!(f, " {point}")?;
        }
        writeln!(f)
    }
}

impl<'a> ShownCertificate<'a> {
    fn order(&self, order: &'a [u32]) -> ShownOrder<'a> {
        ShownOrder {
            order,
            names: self.names,
        }
    }
}

impl Display for ShownCertificate<'_> {
    fn fmt<W: Write>(&self, f: &mut Formatter<W>) -> fmt::Result {
        let names = self.names;
        match self.certified {
            Certified::Yes { bound, rows } => {
                for row in rows.as_slice() {
                    write!(f, "{}", ShownRow { row, names })?;
                }
                writeln!(f, "certified 1 in {bound}")
            }
            Certified::Refuted { order, verdict } => {
                let verdict = ShownVerdict { verdict, names };
                let order = self.order(order.as_slice());
                writeln!(f, "refuted order{order} verdict {verdict}")
            }
            Certified::TooLong { order, steps } => {
                let order = self.order(order.as_slice());
                writeln!(f, "toolong order{order} steps {steps}")
            }
            Certified::TooManyThreads { threads } => writeln!(f, "toomany {threads}"),
        }
    }
}
