// What rules are listed from.
ghost use Rattle.listed.specs.Within.{AllWithin};

use rule_order::Orders;
use sync::Known;

// What is known of a program, a choice, and the orders of the program's functions, nodes and edges. That a list has room for its rules (`RoomFor`) is asked
// where one is handed in: room is the list's, and what it has to hold is the table's.
#[derive(Clone, Copy)]
pub(crate) struct Source<'a> {
    pub known: &'a Known<'a>,
    pub choice: &'a [u8],
    pub orders: &'a Orders,
    ghost all_within: { AllWithin known.now.program.of orders.now },
}
