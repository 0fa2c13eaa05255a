ghost use Rattle.strands.specs.StrandLaws.{StrandLaws};

use theory::Theory;

/// How strands are numbered: a block has as many strands as its size says, its own is number 0, every
/// number below its size is that of just one strand, the strands inside a strand stand in a row from
/// its number on, and the children of each of its statements have the numbers that are counted for
/// them.
pub fn strand_laws<T: Theory>()
    ensures { StrandLaws T.Pattern }
{}
