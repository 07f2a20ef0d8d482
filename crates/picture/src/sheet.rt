//! The sheet of a picture, its style, and its legend. No two signs differ by colour alone.
use std::fmt;

/// The sheet with its style: the beginning of a picture.
#[derive(Clone, Copy)]
pub struct Sheet {
    pub width: u128,
    pub height: u128,
}

/// A background, plain or with the stripes of rows.
#[derive(Clone, Copy)]
pub struct Ground {
    pub striped: bool,
    pub top: u128,
    pub width: u128,
    pub bottom: u128,
}

/// The legend, below the rows: the end of a picture.
#[derive(Clone, Copy)]
pub struct Legend {
    pub top: u128,
}

impl fmt::Display for Sheet {
    ghost use Rattle.std.specs.Prelude.{Some};
    ghost use Rattle.picture.specs.Sheet.{sheet_text};

    ghost output = { λ sheet. Some (sheet_text sheet.width sheet.height) };

    fn fmt<W: fmt::Write>(&self, f: &mut fmt::Formatter<W>) -> fmt::Result {
        let Sheet { width, height } = *self;
        write!(
            f,
            "{}{width}\" height=\"{height}\" viewBox=\"0 0 {width} {height}\">\n{}",
            OPENING, STYLE
        )
    }
}

impl fmt::Display for Ground {
    ghost use Rattle.std.specs.Prelude.{Some};
    ghost use Rattle.picture.specs.Sheet.{ground_text};

    ghost output = { λ ground. Some (ground_text ground.striped ground.top ground.width ground.bottom) };

    fn fmt<W: fmt::Write>(&self, f: &mut fmt::Formatter<W>) -> fmt::Result {
        let Ground {
            striped,
            top,
            width,
            bottom,
        } = *self;
        let style = if striped { "stripes" } else { "paper" };
        write!(
            f,
            "<path class=\"{style}\" d=\"M0 {top}H{width}V{bottom}H0z\"/>\n"
        )
    }
}

impl fmt::Display for Legend {
    ghost use Rattle.std.specs.Prelude.{Some};
    ghost use Rattle.picture.specs.Sheet.{legend_text};

    ghost output = { λ legend. Some (legend_text legend.top) };

    fn fmt<W: fmt::Write>(&self, f: &mut fmt::Formatter<W>) -> fmt::Result {
        let top = self.top;
        write!(
            f,
            "<g transform=\"translate(0 {top})\">\n{}</g>\n</svg>\n",
            LEGEND
        )
    }
}

/// The beginning of a picture, up to its width.
pub const OPENING: &str = "<svg xmlns=\"http://www.w3.org/2000/svg\" width=\"";

/// The style and the definitions of every picture.
pub const STYLE: &str = "<title>A schedule, event by event</title>
<style>
svg{background:#fff;font:12px ui-monospace,Menlo,Consolas,'DejaVu Sans Mono',monospace}
text{fill:#111}
.paper{fill:#fff}
.dim{fill:#555}
.head,.number,.middle{font-weight:bold}
.head,.middle{text-anchor:middle}
.number{text-anchor:end}
text[transform]{font-size:10px}
.stripe{fill:#f1f1f1}
.stripes{fill:url(#stripes)}
.lane,.sends{stroke:#999;fill:none}
.sends{stroke-dasharray:2 4}
.take{fill:#111;stroke:#111;stroke-width:1.5}
.send{fill:#fff;stroke:#111;stroke-width:1.5}
.nothing{fill:#fff;stroke:#777;stroke-dasharray:2 2}
.message,.item{fill:none;stroke:#444;stroke-width:1.2;marker-end:url(#tip)}
.item{stroke-dasharray:4 3}
.tip{fill:#444}
.claim,.shared{fill:#dfe9f7;stroke:#35588a}
.shared{stroke-dasharray:3 2}
.done{fill:#d6f2dc;stroke:#1a7f37;stroke-width:2.5}
.refused{fill:#fff;stroke:#c0271b;stroke-width:2.5;stroke-dasharray:3 2}
.across{marker-end:url(#tip)}
path.refused{stroke-dasharray:8 4}
@media (prefers-color-scheme:dark){
svg{background:#15171c}
text{fill:#e8e8e8}
.paper{fill:#15171c}
.dim{fill:#aaa}
.stripe{fill:#1f232a}
.lane,.sends{stroke:#6b6b6b}
.take{fill:#e8e8e8;stroke:#e8e8e8}
.send{fill:#15171c;stroke:#e8e8e8}
.nothing{fill:#15171c;stroke:#999}
.message,.item{stroke:#b5b5b5}
.tip{fill:#b5b5b5}
.claim,.shared{fill:#22344f;stroke:#7fa6dc}
.done{fill:#14391f;stroke:#3fb950}
.refused{fill:#15171c;stroke:#ff7b72}
}
</style>
<defs>
<marker id=\"tip\" viewBox=\"0 0 8 8\" refX=\"14\" refY=\"4\" markerWidth=\"8\" markerHeight=\"8\" markerUnits=\"userSpaceOnUse\" orient=\"auto\"><path class=\"tip\" d=\"M0 1 8 4 0 7z\"/></marker>
<pattern id=\"stripes\" y=\"74\" width=\"40\" height=\"40\" patternUnits=\"userSpaceOnUse\"><path class=\"stripe\" d=\"M0 20H40V40H0z\"/></pattern>
</defs>
";

/// The text of the legend.
pub const LEGEND: &str = "<text class=\"number\" x=\"40\" y=\"4\">signs</text>
<circle class=\"take\" cx=\"74\" cy=\"0\" r=\"5\"/>
<text x=\"120\" y=\"4\">a request is admitted, a move is ordered, or a message is taken</text>
<circle class=\"send\" cx=\"74\" cy=\"18\" r=\"5\"/>
<text x=\"120\" y=\"22\">an item is sent</text>
<circle class=\"nothing\" cx=\"74\" cy=\"36\" r=\"5\"/>
<text x=\"120\" y=\"40\">it can not happen, and nothing changes</text>
<path class=\"message\" d=\"M56 54H106\"/>
<text x=\"120\" y=\"58\">a message, from where it came into an inbox to where it is taken</text>
<path class=\"item\" d=\"M56 72H106\"/>
<text x=\"120\" y=\"76\">an item, from where it came into an outbox to where it is sent</text>
<path class=\"claim\" d=\"M56 83H74V97H56z\"/><path class=\"shared\" d=\"M80 83H98V97H80z\"/>
<text x=\"120\" y=\"94\">claims on the groups that are named, from the grant to their return; dashes: shared</text>
<path class=\"done\" d=\"M54 101H74V115H54z\"/><circle class=\"done\" cx=\"90\" cy=\"108\" r=\"5\"/>
<text x=\"120\" y=\"112\">logged at that place; answered, as it is logged</text>
<circle class=\"refused\" cx=\"74\" cy=\"126\" r=\"5\"/>
<text x=\"120\" y=\"130\">refused</text>
<text x=\"56\" y=\"148\">Act 1 of 0</text>
<text x=\"140\" y=\"148\">the message of action 1 of the transaction of age 0</text>
";
