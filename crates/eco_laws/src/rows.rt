//! Laws of rows of bits.

ghost use Rattle.eco_laws.specs.Rows.{AllAreMissing, OneLessIsMissing, ListedChangesNothing, NewPairsRunOut, DistinctRowsAreFew, RowsStayDistinct};

/// There are at most 2 ^ n distinct rows of n bits; of the empty list all are missing, and each row that isn't listed makes
/// one less where it is added, so that new rows, and new pairs of rows, run out.
pub fn rows_are_few()
    ensures all { AllAreMissing }
    ensures less { OneLessIsMissing }
    ensures same { ListedChangesNothing }
    ensures pairs { NewPairsRunOut }
    ensures few { DistinctRowsAreFew }
    ensures distinct { RowsStayDistinct }
{}
