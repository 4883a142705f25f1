// Two lent racks as one: who lent them knows them again afterwards.
use crate::pair::PairRack;

pub type LentPair<'a, 'b, A, B> = PairRack<&'a mut A, &'b mut B>;
