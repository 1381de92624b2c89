//! The names of SVG elements and of foreign attributes that aren't all in lower case
//! (13.2.6.1 #creating-and-inserting-nodes, 13.2.6.5 #parsing-main-inforeign).

ghost use Rattle.std.specs.Prelude.{◌≡◌, map};
ghost use Rattle.std.specs.Str.{chars};
ghost use Rattle.std.specs.Char.{to_ascii_lowercase};
ghost use Rattle.std.specs.Option.{option_map};
ghost use Rattle.html_types.specs.Text.{same_text};
ghost use Rattle.standard.specs.ForeignNames.{respelled, svg_names as svg_names_of};
ghost use Rattle.standard.specs.ForeignNames.{svg_attributes as svg_attributes_of};
ghost use Rattle.standard.specs.ForeignNames.{math_attributes as math_attributes_of};
ghost use Rattle.foreign_tables.specs.Split.{FindsFrom};

/// Whether a name in ASCII lower case is `lower`.
pub fn is_lower_of(lower: &str, name: &str) -> bool
    ensures { result ≡ same_text (map to_ascii_lowercase (chars name.now)) (chars lower.now) }
{
    let mut rest = lower.chars();
    for c in name.chars() {
        let Some(d) = rest.next() else {
            return false;
        };
        if d != c.to_ascii_lowercase() {
            return false;
        }
    }
    rest.next().is_none()
}

// The first of the names that is `lower` in ASCII lower case.
#[tactic(auto, unfolding(standard::specs::ForeignNames::respelled))]
fn respelled(names: &'static [&'static str], lower: &str) -> Option<&'static str>
    ensures { option_map (λ name. chars name.now) result
        ≡ respelled (map (λ name. chars name.now) names.now) (chars lower.now) }
{
    for name in names {
        if is_lower_of(lower, name) {
            return Some(*name);
        }
    }
    None
}

/// The name of an SVG element whose name in lower case this is. (13.2.6.5 #parsing-main-inforeign)
pub fn svg_name(lower: &str) -> Option<&'static str>
    ensures { option_map (λ name. chars name.now) result
        ≡ respelled svg_names_of (chars lower.now) }
{
    match lower.chars().next() {
        Some(letter) => respelled(svg_names_from(letter), lower),
        None => None,
    }
}

/// The name of an SVG attribute whose name in lower case this is: "adjust SVG attributes".
/// (13.2.6.1 #creating-and-inserting-nodes)
pub fn svg_attribute(lower: &str) -> Option<&'static str>
    ensures { option_map (λ name. chars name.now) result
        ≡ respelled svg_attributes_of (chars lower.now) }
{
    match lower.chars().next() {
        Some(letter) => respelled(svg_attributes_from(letter), lower),
        None => None,
    }
}

/// The name of a MathML attribute whose name in lower case this is: "adjust MathML attributes".
/// (13.2.6.1 #creating-and-inserting-nodes)
pub fn math_attribute(lower: &str) -> Option<&'static str>
    ensures { option_map (λ name. chars name.now) result
        ≡ respelled math_attributes_of (chars lower.now) }
{
    respelled(math_attributes(), lower)
}

// The names of SVG elements that begin with a letter, all those that there are.
fn svg_names_from(letter: char) -> &'static [&'static str]
    ensures { FindsFrom letter (map (λ name. chars name.now) result.now) svg_names_of }
{
    match letter {
        'a' => &[
            "altGlyph",
            "altGlyphDef",
            "altGlyphItem",
            "animateColor",
            "animateMotion",
            "animateTransform",
        ],
        'c' => &["clipPath"],
        'f' => &[
            "feBlend",
            "feColorMatrix",
            "feComponentTransfer",
            "feComposite",
            "feConvolveMatrix",
            "feDiffuseLighting",
            "feDisplacementMap",
            "feDistantLight",
            "feDropShadow",
            "feFlood",
            "feFuncA",
            "feFuncB",
            "feFuncG",
            "feFuncR",
            "feGaussianBlur",
            "feImage",
            "feMerge",
            "feMergeNode",
            "feMorphology",
            "feOffset",
            "fePointLight",
            "feSpecularLighting",
            "feSpotLight",
            "feTile",
            "feTurbulence",
            "foreignObject",
        ],
        'g' => &["glyphRef"],
        'l' => &["linearGradient"],
        'r' => &["radialGradient"],
        't' => &["textPath"],
        _ => &[],
    }
}

// The names of SVG attributes that begin with a letter.
fn svg_attributes_from(letter: char) -> &'static [&'static str]
    ensures { FindsFrom letter (map (λ name. chars name.now) result.now) svg_attributes_of }
{
    match letter {
        'a' => &["attributeName", "attributeType"],
        'b' => &["baseFrequency", "baseProfile"],
        'c' => &["calcMode", "clipPathUnits"],
        'd' => &["diffuseConstant"],
        'e' => &["edgeMode"],
        'f' => &["filterUnits"],
        'g' => &["glyphRef", "gradientTransform", "gradientUnits"],
        'k' => &[
            "kernelMatrix",
            "kernelUnitLength",
            "keyPoints",
            "keySplines",
            "keyTimes",
        ],
        'l' => &["lengthAdjust", "limitingConeAngle"],
        'm' => &[
            "markerHeight",
            "markerUnits",
            "markerWidth",
            "maskContentUnits",
            "maskUnits",
        ],
        'n' => &["numOctaves"],
        'p' => &[
            "pathLength",
            "patternContentUnits",
            "patternTransform",
            "patternUnits",
            "pointsAtX",
            "pointsAtY",
            "pointsAtZ",
            "preserveAlpha",
            "preserveAspectRatio",
            "primitiveUnits",
        ],
        'r' => &[
            "refX",
            "refY",
            "repeatCount",
            "repeatDur",
            "requiredExtensions",
            "requiredFeatures",
        ],
        's' => &[
            "specularConstant",
            "specularExponent",
            "spreadMethod",
            "startOffset",
            "stdDeviation",
            "stitchTiles",
            "surfaceScale",
            "systemLanguage",
        ],
        't' => &["tableValues", "targetX", "targetY", "textLength"],
        'v' => &["viewBox", "viewTarget"],
        'x' => &["xChannelSelector"],
        'y' => &["yChannelSelector"],
        'z' => &["zoomAndPan"],
        _ => &[],
    }
}

fn math_attributes() -> &'static [&'static str]
    ensures { map (λ name. chars name.now) result.now ≡ math_attributes_of }
{
    &["definitionURL"]
}
