// Messages worked out by hand, each a law that computing shows.

ghost use Rattle.mdr_model.specs.WorkedCopies.{DeathsRise, ZerosArentTold, CycleIsTold};

/// Blocks that are told in another order than they were born in: their deaths rise, and the user half takes them.
pub fn deaths_rise_in_whatever_order_blocks_were_told()
    ensures { DeathsRise }
{}

/// Of a new block whose cells are zero the pointer to it is told, and no cell.
pub fn zeros_of_a_new_block_are_not_told()
    ensures { ZerosArentTold }
{}

/// Two blocks that point to each other, two cells that point to one, and a death that takes a pointer with it.
pub fn a_cycle_and_its_deaths_are_told()
    ensures { CycleIsTold }
{}
