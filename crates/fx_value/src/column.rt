ghost use Rattle.std.specs.Prelude.{◌≡◌, ◌^◌, ◌<◌, [], length, replicate, IfOk};
ghost use Rattle.fx_walk.specs.Values.{sight};
ghost use Rattle.fx_value.specs.Columns.{differences, numbers_from, padded, products, sums};
ghost use Rattle.fx_value.specs.Terms.{term_values};

use crate::formula::{Term, newest};
use crate::values::Values;
use fx_base::NoMemory;
use fx_walk::View;
use std::alloc::Global;

/// Columns in which whole arrays are computed. They are kept, so that nothing is allocated once the
/// deepest formula was computed over the longest array.
#[derive(Debug, Drop)]
pub struct Columns {
    // Those that aren't in use.
    free: Vec<Vec<i64>>,
}

impl Columns {
    /// No column yet.
    pub fn new(alloc: Global) -> Columns {
        Columns {
            free: Vec::new(alloc),
        }
    }

    /// The value of a term at each index of an array of these elements.
    pub(crate) fn compute(
        &mut self,
        term: &Term,
        view: &View,
        values: &Values,
        olds: &[i64],
    ) -> Result<Vec<i64>, NoMemory>
        ensures { IfOk result (λ column. column.items ≡ term_values term.now (sight view.now values.now) 0 olds.now) }
    {
        let len = olds.len();
        match term {
            Term::Number(number) => self.repeated(*number, len),
            Term::Counter(slot) => self.repeated(values.counter(*slot), len),
            Term::Element(slot) => self.padded(values.array(*slot), len),
            Term::Index => self.indices(len),
            Term::Rank => self.repeated(i64::from(view.rank), len),
            Term::Size => self.repeated(i64::from(view.size), len),
            Term::Latest(group) => self.repeated(newest(view, *group), len),
            Term::Add(left, right) => {
                let mut sum = self.compute(left.get(), view, values, olds)?;
                let right = self.compute(right.get(), view, values, olds)?;
                add_all(sum.as_mut_slice(), right.as_slice());
                self.give_back(right);
                Ok(sum)
            }
            Term::Sub(left, right) => {
                let mut difference = self.compute(left.get(), view, values, olds)?;
                let right = self.compute(right.get(), view, values, olds)?;
                subtract_all(difference.as_mut_slice(), right.as_slice());
                self.give_back(right);
                Ok(difference)
            }
            Term::Mul(left, right) => {
                let mut product = self.compute(left.get(), view, values, olds)?;
                let right = self.compute(right.get(), view, values, olds)?;
                multiply_all(product.as_mut_slice(), right.as_slice());
                self.give_back(right);
                Ok(product)
            }
        }
    }

    /// Keeps a column that isn't used any more, or without memory lets it go.
    pub(crate) fn give_back(&mut self, column: Vec<i64>) {
        let _ = self.free.push(column);
    }

    /// An empty column.
    fn take(&mut self) -> Vec<i64>
        ensures { result.items ≡ [] }
    {
        match self.free.pop() {
            Some(mut column) => {
                column.clear();
                column
            }
            None => Vec::new(*self.free.allocator()),
        }
    }

    /// A column of one number.
    fn repeated(&mut self, number: i64, len: usize) -> Result<Vec<i64>, NoMemory>
        ensures { IfOk result (λ column. column.items ≡ replicate len number) }
    {
        let mut column = self.take();
        column.resize(len, number)?;
        Ok(column)
    }

    /// A column of elements, and of zeros where these end before.
    #[tactic(auto, using(crate::proofs::Numbered::padded_front))]
    fn padded(&mut self, elements: &[i64], len: usize) -> Result<Vec<i64>, NoMemory>
        ensures { IfOk result (λ column. column.items ≡ padded len elements.now) }
    {
        let mut column = self.take();
        if len <= elements.len() {
            column.extend_from_slice(&elements[..len])?;
            return Ok(column);
        }
        column.extend_from_slice(elements)?;
        column.resize(len, 0)?;
        Ok(column)
    }

    /// A column of the indices.
    fn indices(&mut self, len: usize) -> Result<Vec<i64>, NoMemory>
        ensures { IfOk result (λ column. column.items ≡ numbers_from 0 len) }
    {
        let mut column = self.repeated(0, len)?;
        number_all(column.as_mut_slice());
        Ok(column)
    }
}

fn number_all(column: &mut [i64])
    requires { length column.old < 2 ^ 63 }
    ensures { column.new ≡ numbers_from 0 (length column.old) }
{
    for at in 0..column.len() {
        column[at] = at as i64;
    }
}

fn add_all(left: &mut [i64], right: &[i64])
    requires { length left.old ≡ length right.now }
    ensures { left.new ≡ sums left.old right.now }
{
    for at in 0..left.len() {
        left[at] = left[at].wrapping_add(right[at]);
    }
}

fn subtract_all(left: &mut [i64], right: &[i64])
    requires { length left.old ≡ length right.now }
    ensures { left.new ≡ differences left.old right.now }
{
    for at in 0..left.len() {
        left[at] = left[at].wrapping_sub(right[at]);
    }
}

fn multiply_all(left: &mut [i64], right: &[i64])
    requires { length left.old ≡ length right.now }
    ensures { left.new ≡ products left.old right.now }
{
    for at in 0..left.len() {
        left[at] = left[at].wrapping_mul(right[at]);
    }
}
