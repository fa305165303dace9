//! Configurations as lines.

ghost use Rattle.std.specs.Prelude.{[]};
ghost use Rattle.value_tests.specs.Networks.{one_switch, two_switches, every_way_rules, of_rules};
ghost use Rattle.value_tests.specs.Printing.{Prints, every_way_text, every_kind, every_kind_text};
ghost use Rattle.value_tests.specs.Printing.{lines_of_h1, text_of_h1};

/// The rules of one switch for the policy that allows every way.
pub fn rules_of_one_switch()
    ensures { Prints one_switch (of_rules every_way_rules []) every_way_text }
{}

/// Rules of every kind, a line of a middlebox and two queues.
pub fn rules_and_queues()
    ensures { Prints two_switches every_kind every_kind_text }
{}

/// What a host does.
pub fn lines_of_a_host()
    ensures { Prints one_switch (of_rules [] lines_of_h1) text_of_h1 }
{}
