// What holds over many calls: the raises that are counted, lists as single writes, releases that raise in different orders, maps. Nothing
// that a function needs stands here. It has no function.
#![tactic(auto)]
