// Systems of powers of points, solved in place.
ghost use Rattle.std.specs.Prelude.{◌≡◌, ◌-◌, ◌<◌, ◌≤◌, length};
ghost use Rattle.code.specs.Calls.{Solved};
ghost use Rattle.code.specs.Code.{total};
ghost use Rattle.code.specs.Solving.{Codes, Divided, KeptFrom, Reduced, points, reads};
ghost use Rattle.code.specs.Theorems.{Solves, VandermondeOne, VandermondeSome};
ghost use Rattle.shape.specs.Listing.{outages};

use crate::arithmetic::{difference, element};
use crate::checking::all_codes;
use field::Field;
use refusal::Refusal;
use shape::OutageList;

// The sum of elements.
fn sum<F: Field>(sides: &[u16]) -> F::Element
    ensures { result ≡ total F.arith (reads F.arith sides.now) (length sides.now) }
{
    let mut sum = F::zero();
    for side in sides {
        sum = F::sum(sum, element::<F>(*side));
    }
    sum
}

// Takes `a` times each right side from the next one. The last word stays.
fn reduce<F: Field>(a: F::Element, sides: &mut [u16])
    requires { 0 < length sides.old }
    ensures reduced { Reduced F.arith a sides.old sides.new (length sides.old - 1) }
    ensures kept { KeptFrom sides.old sides.new (length sides.old - 1) }
{
    // By index: each step reads the next word and writes this one.
    for e in 0..sides.len() - 1 {
        let next = element::<F>(sides[e + 1]);
        let here = F::product(a, element::<F>(sides[e]));
        sides[e] = F::code(difference::<F>(next, here));
    }
}

// Divides an element for each node by the difference of the node's point from `a`.
fn divide<F: Field>(nodes: &[usize], a: F::Element, sides: &mut [u16])
    requires { length nodes.now ≤ length sides.old }
    ensures divided { Divided F.arith a nodes.now sides.old sides.new (length nodes.now) }
    ensures codes { Codes F.arith sides.new (length nodes.now) }
    ensures kept { KeptFrom sides.old sides.new (length nodes.now) }
{
    // By index: of a slice written through a `zip` a proof knows the length alone, and with `enumerate` over the words the nodes would be read by index.
    for (k, node) in nodes.iter().enumerate() {
        let by = F::inverse(difference::<F>(F::point(*node), a));
        sides[k] = F::code(F::product(by, element::<F>(sides[k])));
    }
}

// Solves the system of the first n points of a list: the first n words are its right sides, and then its solution.
// By a length n: the list tells that its points differ, which a bare slice of nodes would have to be asked.
pub(crate) fn solve_first<F: Field>(out: &OutageList, sides: &mut [u16], n: usize)
    requires room { n ≤ length sides.old }
    requires listed { n ≤ length (outages out.now) }
    ensures solves { Solves F.arith (points F.arith (outages out.now)) (reads F.arith sides.new) (reads F.arith sides.old) n }
    ensures codes { Codes F.arith sides.new n }
    ensures kept { KeptFrom sides.old sides.new n }
{
    if n > 0 {
        let last = n - 1;
        let nodes = out.as_slice();
        let first = element::<F>(sides[0]);
        let a = F::point(nodes[last]);
        reduce::<F>(a, &mut sides[..n]);
        solve_first::<F>(out, sides, last);
        divide::<F>(&nodes[..last], a, sides);
        let rest = sum::<F>(&sides[..last]);
        sides[last] = F::code(difference::<F>(first, rest));
    }
}

// Finds the only codes x with the moments that the first words are: word e is the sum over the listed nodes of point^e times x.
// The words are then those codes.
pub fn solve<F: Field>(out: &OutageList, sides: &mut [u16]) -> Result<(), Refusal>
    ensures solved { Solved F.arith (outages out.now) sides.old result sides.new }
    ensures some_solution { VandermondeSome F.arith }
    ensures one_solution { VandermondeOne F.arith }
{
    let n = out.len();
    if sides.len() < n {
        return Err(Refusal::WorkSpace);
    }
    if !all_codes::<F>(&sides[..n]) {
        return Err(Refusal::NoCode);
    }
    solve_first::<F>(out, sides, n);
    Ok(())
}
