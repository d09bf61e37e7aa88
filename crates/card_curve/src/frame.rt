// What stands around the curve: the legend, the lines of degrees and hours, and their numbers.
use crate::scale::Scale;
use wording::Text;

pub fn legend(out: &mut Text, unsaid: bool) {
    out.words(
        b"<g stroke-width=\"7\" stroke-linecap=\"round\">\n<line x1=\"840\" y1=\"38\" x2=\"890\" y2=\"38\" stroke=\"#b3261e\"/>\n<line x1=\"1000\" y1=\"38\" x2=\"1050\" y2=\"38\" stroke=\"#d08700\"/>\n<line x1=\"1150\" y1=\"38\" x2=\"1200\" y2=\"38\" stroke=\"#1f5fa8\"/>\n",
    );
    if unsaid {
        out.words(
            b"<line x1=\"1300\" y1=\"38\" x2=\"1350\" y2=\"38\" stroke=\"#707070\" stroke-dasharray=\"2 14\"/>\n",
        );
    }
    out.words(
        b"</g>\n<text x=\"902\" y=\"47\">climb</text>\n<text x=\"1062\" y=\"47\">hold</text>\n<text x=\"1212\" y=\"47\">drop</text>\n",
    );
    if unsaid {
        out.words(b"<text x=\"1362\" y=\"47\">time unknown</text>\n");
    }
}

pub fn grid(out: &mut Text, scale: Scale) {
    out.words(b"<g stroke=\"#d0d0d0\" stroke-width=\"2\">\n");
    scale.at_degrees(|tenths| {
        let y = scale.y(tenths);
        out.fill(
            b"<line x1=\"120\" y1=\"$\" x2=\"1560\" y2=\"$\"/>\n",
            &[y, y],
        );
    });
    scale.at_hours(|seconds| {
        let x = scale.x(seconds);
        out.fill(
            b"<line x1=\"$\" y1=\"140\" x2=\"$\" y2=\"800\"/>\n",
            &[x, x],
        );
    });
    out.words(b"</g>\n");
}

pub fn numbers(out: &mut Text, scale: Scale) {
    out.words(b"<g fill=\"#404040\" text-anchor=\"end\">\n");
    scale.at_degrees(|tenths| {
        let y = scale.y(tenths);
        out.fill(
            b"<text x=\"106\" y=\"$\">$</text>\n",
            &[y + 9, u64::from(tenths / 10)],
        );
    });
    out.words(
        b"<text x=\"106\" y=\"118\">degrees</text>\n</g>\n<g fill=\"#404040\" text-anchor=\"middle\">\n",
    );
    scale.at_hours(|seconds| {
        let x = scale.x(seconds);
        out.fill(
            b"<text x=\"$\" y=\"838\">$</text>\n",
            &[x, u64::from(seconds / 3600)],
        );
    });
    out.words(b"<text x=\"840\" y=\"880\">hours</text>\n</g>\n");
}
