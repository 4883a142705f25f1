// One plane of an array: its score, and the uncoupled symbols of the nodes that are out.
ghost use Rattle.std.specs.Prelude.{◌≡◌, ℕ, ◌*◌, ◌^◌, ◌<◌, length, slice_index};
ghost use Rattle.code.specs.Arrays.{Stays, symbols_in, symbols_of};
ghost use Rattle.code.specs.Filling.{score};
ghost use Rattle.code.specs.Steps.{HoldsSolution, PlaneSolved, lacks};
ghost use Rattle.shape.specs.Layout.{digit, node_at};
ghost use Rattle.shape.specs.Listing.{outages};
ghost use Rattle.shape.specs.Outages.{among};

use crate::arithmetic::element;
use crate::array::{Array, ArrayMut};
use crate::solver::solve_first;
use field::Field;
use shape::{OutageList, Shape};

// Whether the node of a column is out that is in the row of the place's digit there.
fn digit_out(shape: Shape, out: &OutageList, column: usize, place: usize) -> bool
    requires { column < shape.t }
    ensures { result ≡ among (outages out.now) (node_at shape.q (digit shape.q place column) column) }
{
    // Where nothing is out, no digit is asked.
    out.len() > 0 && out.contains(column * shape.rows() + shape.digit(place, column))
}

// The score of a plane: in how many columns the node in the row of the plane's digit is out.
pub(crate) fn score(shape: Shape, out: &OutageList, place: usize) -> usize
    ensures { result ≡ score shape.q shape.t (among (outages out.now)) place }
{
    (0..shape.columns())
        .filter(|y| digit_out(shape, out, *y, place))
        .count()
}

impl<F: Field> Array<'_, F> {
    // The right sides of a plane: what its checks lack.
    // In fixed memory: so an array as long as any list, of which the first words count, and no vector.
    fn plane_sides(&self, out: &OutageList, place: usize) -> [u16; 16]
        requires { place < self.now.shape.q ^ self.now.shape.t }
        ensures { (e : ℕ) → e < length (outages out.now) → slice_index result e ≡ F.arith.code (lacks F.arith self.now.shape.q self.now.shape.t (among (outages out.now)) (symbols_of F.arith self.now) place e) }
    {
        let mut sides = [0u16; 16];
        for (e, side) in sides[..out.len()].iter_mut().enumerate() {
            *side = F::code(F::negative(self.known_sum(out, place, e)));
        }
        sides
    }

    // The uncoupled symbols of the listed nodes in a plane, in the list's order.
    // The list is no part of the array: a test of checks takes an empty one, and a rebuild that of a column.
    pub(crate) fn plane_solution(&self, out: &OutageList, place: usize) -> [u16; 16]
        requires place { place < self.now.shape.q ^ self.now.shape.t }
        requires count { out.now.count ≡ self.now.shape.q * self.now.shape.t }
        ensures { HoldsSolution F.arith self.now.shape.q self.now.shape.t (among (outages out.now)) (symbols_of F.arith self.now) place (outages out.now) result (length (outages out.now)) }
    {
        let mut sides = self.plane_sides(out, place);
        solve_first::<F>(out, &mut sides, out.len());
        sides
    }
}

impl<F: Field> ArrayMut<'_, F> {
    // Writes the uncoupled symbols of the listed nodes into their words in a plane.
    pub(crate) fn solve_plane(&mut self, out: &OutageList, place: usize)
        requires place { place < self.old.shape.q ^ self.old.shape.t }
        requires count { out.now.count ≡ self.old.shape.q * self.old.shape.t }
        ensures solved { PlaneSolved F.arith self.old.shape.q self.old.shape.t (among (outages out.now)) place (symbols_in F.arith self.old) (symbols_in F.arith self.new) }
        ensures stays { Stays F.arith self.old self.new }
    {
        let solution = self.view().plane_solution(out, place);
        for (node, word) in out.as_slice().iter().zip(&solution) {
            self.write_symbol(*node, place, element::<F>(*word));
        }
    }
}
