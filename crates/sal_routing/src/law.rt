//! Laws of the definitions: functions without work, whose contracts are the laws.

ghost use Rattle.sal_routing.specs.Laws.{IdleClocksChangeNothing, PartsKeepTheNode, RoutingEnds, RoutingGoesByItems, UnwantedDatagramsChangeLittle};

/// Routing goes on to the end of its list.
pub fn routing_ends()
    ensures { RoutingEnds }
{}

/// The list is routed item after item from its front, and each leaves less that can still be routed.
pub fn routing_goes_by_items()
    ensures { RoutingGoesByItems }
{}

/// Whatever a turn routes, the theatre's number, its plan, its links and its clock stay as they were.
pub fn parts_keep_the_node()
    ensures { PartsKeepTheNode }
{}

/// A datagram that carries no wanted fragment changes nothing but what a link knows.
pub fn unwanted_datagrams_change_little()
    ensures { UnwantedDatagramsChangeLittle }
{}

/// A clock turn that found nothing to do changes nothing.
pub fn idle_clocks_change_nothing()
    ensures { IdleClocksChangeNothing }
{}
