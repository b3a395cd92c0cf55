// Documents without white space between elements, and texts of their answers.

/// The origin alone.
pub(crate) const ORIGIN: &str = "<graphml><graph><node id=\"Z\"/></graph></graphml>";

/// X is at 5 or later.
pub(crate) const PAIR: &str = "<graphml><graph><node id=\"Z\"/><node id=\"X\"/>\
    <edge source=\"X\" target=\"Z\"><data key=\"LabeledValues\">{(-5, ⊡)}</data></edge></graph></graphml>";

/// X is at 10 or later where p is true, and at 3 or earlier where it is false.
pub(crate) const BRANCH: &str =
    "<graphml><graph><node id=\"Z\"/><node id=\"P\"><data key=\"Obs\">p</data></node><node id=\"X\"/>\
    <edge source=\"X\" target=\"Z\"><data key=\"LabeledValues\">{(-10, p)}</data></edge>\
    <edge source=\"Z\" target=\"X\"><data key=\"LabeledValues\">{(3, !p)}</data></edge></graph></graphml>";

/// The branch, where the outcome of p is known three ticks after P.
pub(crate) const SLOW: &str = "<graphml><graph><node id=\"Z\"/>\
    <node id=\"P\"><data key=\"Obs\">p</data><data key=\"Reaction\">3</data></node><node id=\"X\"/>\
    <edge source=\"X\" target=\"Z\"><data key=\"LabeledValues\">{(-10, p)}</data></edge>\
    <edge source=\"Z\" target=\"X\"><data key=\"LabeledValues\">{(3, !p)}</data></edge></graph></graphml>";

/// The branch, where P is at 2 or later, the latest moment of P with which there is a strategy.
pub(crate) const LAST: &str =
    "<graphml><graph><node id=\"Z\"/><node id=\"P\"><data key=\"Obs\">p</data></node><node id=\"X\"/>\
    <edge source=\"X\" target=\"Z\"><data key=\"LabeledValues\">{(-10, p)}</data></edge>\
    <edge source=\"Z\" target=\"X\"><data key=\"LabeledValues\">{(3, !p)}</data></edge>\
    <edge source=\"P\" target=\"Z\"><data key=\"LabeledValues\">{(-2, ⊡)}</data></edge></graph></graphml>";

/// The branch, where P is at 3 or later.
pub(crate) const LATE: &str =
    "<graphml><graph><node id=\"Z\"/><node id=\"P\"><data key=\"Obs\">p</data></node><node id=\"X\"/>\
    <edge source=\"X\" target=\"Z\"><data key=\"LabeledValues\">{(-10, p)}</data></edge>\
    <edge source=\"Z\" target=\"X\"><data key=\"LabeledValues\">{(3, !p)}</data></edge>\
    <edge source=\"P\" target=\"Z\"><data key=\"LabeledValues\">{(-3, ⊡)}</data></edge></graph></graphml>";

/// Each of two observers waits for the other.
pub(crate) const CROSSED: &str =
    "<graphml><graph><node id=\"Z\"/><node id=\"P\"><data key=\"Obs\">p</data></node>\
    <node id=\"Q\"><data key=\"Obs\">q</data></node>\
    <edge source=\"P\" target=\"Z\"><data key=\"LabeledValues\">{(-5, q)}</data></edge>\
    <edge source=\"Q\" target=\"Z\"><data key=\"LabeledValues\">{(-5, p)}</data></edge></graph></graphml>";

/// A start, an observation, a task and an end.
pub(crate) const PROCESS: &str =
    "<graphml><graph><node id=\"Z\"/><node id=\"S\"/><node id=\"P\"><data key=\"Obs\">p</data></node>\
    <node id=\"T\"/><node id=\"E\"/>\
    <edge source=\"P\" target=\"S\"><data key=\"LabeledValues\">{(-5, ⊡)}</data></edge>\
    <edge source=\"S\" target=\"P\"><data key=\"LabeledValues\">{(10, ⊡)}</data></edge>\
    <edge source=\"T\" target=\"P\"><data key=\"LabeledValues\">{(-2, p)}</data></edge>\
    <edge source=\"T\" target=\"P\"><data key=\"LabeledValues\">{(-8, !p)}</data></edge>\
    <edge source=\"E\" target=\"T\"><data key=\"LabeledValues\">{(-3, ⊡)}</data></edge>\
    <edge source=\"Z\" target=\"E\"><data key=\"LabeledValues\">{(30, ⊡)}</data></edge></graph></graphml>";

/// X, which is executed where p is true, is at 5 or later.
pub(crate) const LABELLED: &str =
    "<graphml><graph><node id=\"Z\"/><node id=\"P\"><data key=\"Obs\">p</data></node>\
    <node id=\"X\"><data key=\"Label\">p</data></node>\
    <edge source=\"X\" target=\"Z\"><data key=\"LabeledValues\">{(-5, ⊡)}</data></edge></graph></graphml>";

/// P is at 3 or later, and X is executed where p is true.
pub(crate) const LABELLED_LATE: &str =
    "<graphml><graph><node id=\"Z\"/><node id=\"P\"><data key=\"Obs\">p</data></node>\
    <node id=\"X\"><data key=\"Label\">p</data></node>\
    <edge source=\"P\" target=\"Z\"><data key=\"LabeledValues\">{(-3, ⊡)}</data></edge></graph></graphml>";

/// Each of two observers is executed where the other's proposition is true.
pub(crate) const CIRCLE: &str =
    "<graphml><graph><node id=\"Z\"/><node id=\"P\"><data key=\"Obs\">p</data><data key=\"Label\">q</data></node>\
    <node id=\"Q\"><data key=\"Obs\">q</data><data key=\"Label\">p</data></node></graph></graphml>";

/// The pathway of a fever: a sample with a result an hour later, and an antibiotic where it shows an infection.
pub(crate) const PATHWAY: &str = "<graphml><graph><data key=\"Deadline\">360</data>\
    <node id=\"Z\"/>\
    <node id=\"Sample\"><data key=\"Obs\">i</data><data key=\"Reaction\">60</data></node>\
    <node id=\"Antibiotic\"><data key=\"Label\">i</data></node>\
    <node id=\"Review\"/>\
    <node id=\"Discharge\"/>\
    <edge source=\"Z\" target=\"Sample\"><data key=\"LabeledValues\">{(15, ⊡)}</data></edge>\
    <edge source=\"Antibiotic\" target=\"Sample\"><data key=\"LabeledValues\">{(-65, i)}</data></edge>\
    <edge source=\"Sample\" target=\"Antibiotic\"><data key=\"LabeledValues\">{(90, i)}</data></edge>\
    <edge source=\"Review\" target=\"Antibiotic\"><data key=\"LabeledValues\">{(-120, i)}</data></edge>\
    <edge source=\"Review\" target=\"Sample\"><data key=\"LabeledValues\">{(-80, ¬i)}</data></edge>\
    <edge source=\"Sample\" target=\"Review\"><data key=\"LabeledValues\">{(120, ¬i)}</data></edge>\
    <edge source=\"Discharge\" target=\"Review\"><data key=\"LabeledValues\">{(-10, ⊡)}</data></edge>\
    <edge source=\"Z\" target=\"Discharge\"><data key=\"LabeledValues\">{(360, ⊡)}</data></edge></graph></graphml>";

/// The pathway of a stroke.
pub(crate) const STROKE: &str = "<graphml><graph><data key=\"Deadline\">240</data>\
    <node id=\"Z\"/>\
    <node id=\"Scan\"><data key=\"Obs\">b</data><data key=\"Reaction\">5</data></node>\
    <node id=\"Drip\"/>\
    <node id=\"Swallow\"><data key=\"Obs\">s</data></node>\
    <node id=\"Meal\"/>\
    <edge source=\"Z\" target=\"Scan\"><data key=\"LabeledValues\">{(25, ⊡)}</data></edge>\
    <edge source=\"Z\" target=\"Drip\"><data key=\"LabeledValues\">{(60, ¬b)}</data></edge>\
    <edge source=\"Drip\" target=\"Scan\"><data key=\"LabeledValues\">{(-10, ¬b)}</data></edge>\
    <edge source=\"Swallow\" target=\"Drip\"><data key=\"LabeledValues\">{(-30, ¬b)}</data></edge>\
    <edge source=\"Swallow\" target=\"Z\"><data key=\"LabeledValues\">{(-90, b)}</data></edge>\
    <edge source=\"Swallow\" target=\"Meal\"><data key=\"LabeledValues\">{(20, s)}</data></edge>\
    <edge source=\"Meal\" target=\"Swallow\"><data key=\"LabeledValues\">{(-60, ¬s)}</data></edge>\
    <edge source=\"Meal\" target=\"Swallow\"><data key=\"LabeledValues\">{(-1, ⊡)}</data></edge>\
    <edge source=\"Drip\" target=\"Scan\"><data key=\"LabeledValues\">{(-5, ⊡)}</data></edge></graph></graphml>";

/// The canonical document of the branch.
pub(crate) const SAVED: &str = "<?xml version=\"1.0\" encoding=\"UTF-8\"?>
<graphml>
<graph edgedefault=\"directed\">
<data key=\"Deadline\">10</data>
<node id=\"Z\"/>
<node id=\"P\"><data key=\"Obs\">p</data></node>
<node id=\"X\"/>
<edge source=\"X\" target=\"Z\"><data key=\"Type\">requirement</data><data key=\"LabeledValues\">{(-10, p)}</data></edge>
<edge source=\"Z\" target=\"X\"><data key=\"Type\">requirement</data><data key=\"LabeledValues\">{(3, ¬p)}</data></edge>
</graph>
</graphml>
";

/// The refutation of `LATE` by the deadline 10.
pub(crate) const PROOF: &str =
    "no 7\n0 base Z 0 -\n1 chain 0 0 X 10 p\n2 chain 2 0 P 3 -\n3 wait 2 1 X 4 -\n4 chain 1 3 Z 1 !p\n";

/// The bounds of the branch by the deadline 10.
pub(crate) const BOUNDS: &str = "yes 5\nbound Z 0 -\nbound P 0 -\nbound X 10 p\nbound X 1 -\n";

/// The tree of the branch by the deadline 10.
pub(crate) const TREE: &str = "yes 5\nat 0 Z P\nask p\nat 10 X\ndone\nat 1 X\ndone\n";
