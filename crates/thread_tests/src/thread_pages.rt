//! The pages that are run.

/// Two names, with and without `;`.
pub const ENTITIES: &str =
    "{\"&amp;\":{\"codepoints\":[38]},\"&amp\":{\"codepoints\":[38]},\"&notin;\":{\"codepoints\":[8713]},\"&not\":{\"codepoints\":[172]}}";

/// The files of the scripts. What `bold` writes leaves an element open; `nested` writes a script
/// that is awaited, and then more.
pub const SCRIPTS: [(&str, &str); 5] = [
    ("a", ""),
    ("kept", "document.write(\"<i>k</i>\");"),
    ("bold", "document.write(\"<b>\");"),
    (
        "nested",
        "document.write(\"<script src=\\\"kept\\\"><\\/script>X\");document.write(\"Y\");",
    ),
    (
        "reads",
        "console.log(document.documentElement.outerHTML);document.getElementById(\"no\").remove();",
    ),
];

/// Pages whose scripts keep what was parsed ahead of them, or have it thrown away; with files of
/// scripts, nested writes, and refusals.
pub const PAGES: [&str; 20] = [
    "<p>a<script>document.write(\"<b>x</b>\");</script>b<p>c<script>document.write(\"d\");</script>e",
    "<p>a<script>document.write(\"<b>x\");</script>b<p>c<script>document.write(\"<i>y\");</script>d",
    "<p>a<script src=\"kept\"></script>b<script src=\"kept\"></script>c<script src=\"none\"></script>d",
    "<p>a<script src=\"bold\"></script>b<script src=\"kept\"></script>c<script src=\"bold\"></script>d",
    "<body>a<script src=\"nested\"></script>b<p>c<script src=\"nested\"></script>d",
    "<body><script>document.write(\"<script src=\\\"nested\\\"><\\/script>1\");document.write(\"2\");</script>3<script src=\"reads\"></script>4",
    "<script>document.write(\"<script>document.write(\\\"A<b>\\\");<\\/script>B\");document.write(\"C\");</script>D<p>E",
    "<div id=\"d\"><script>document.getElementById(\"d\").remove();</script>a</div>b<script src=\"reads\"></script>",
    "<div><table id=\"t\"><script>document.getElementById(\"t\").remove();</script>x<tr><td>y</table></div>z",
    "<table>a<tr>b<td>c<script>document.write(\"<b>d</b>\");</script>e</table>f<script src=\"reads\"></script>g",
    "<table><tr><td><script>document.write(\"</table>\");</script>a<td>b<tr>c",
    "<body>a<script>document.write(\"\\r\");</script>\nb<script>document.write(\"&am\");</script>p;c&notin;d",
    "<div><script>document.write(\"x\");</script><frameset><frame></frameset>",
    "<script>document.write(\"<!--\");</script><p>a<script>document.write(\"b\");</script>c--><p>d",
    "<body><script>document.write(\"<textarea>\");</script><b>a</b></textarea><i>b<script>document.write(\"<i-i\");</script> class=\"k\">c",
    "<template>a<script>document.write(\"n\");</script><b>b</template>c<script>document.write(\"<template>\");</script>d",
    "<svg viewbox=\"0\"><foreignobject><p>a<script>document.write(\"<i>x</i>\");</script>b</svg><math><mi>c<script src=\"kept\"></script>d",
    "<b>1<p>2</b>3<script>foo();</script><script>document.write(\"</b><b>\");</script>4<script src=\"reads\"></script>5",
    "<p>a<script src=\"bold\"></script>b<script>document.getElementById(\"no\").remove();</script><select><option>c<option>d",
    "<p id=\"p\">a<script>document.write(\"<i id=\\\"q\\\">\");document.getElementById(\"p\").append(document.getElementById(\"q\"));</script>b<script src=\"bold\"></script>c",
];

/// Pages of which no script fails: none, scripts that are kept, files that are awaited, nested
/// writes, a table, svg, a template, and text that is no tag.
pub const STEADY: [&str; 8] = [
    "<!doctype html><title>a</title><body id=\"b\"><p>plain &amp; text&notin;<b>1<p>2</b>3<!-- c --><select><option>d<option>e",
    "<p>a<script>document.write(\"<b>x</b>\");</script>b<p>c<script>document.write(\"d\");</script>e",
    "<p>a<script src=\"kept\"></script>b<script src=\"kept\"></script>c<script src=\"a\"></script>d",
    "<body>a<script src=\"nested\"></script>b<p>c<script src=\"nested\"></script>d",
    "<body><table><tr><td>c<script>document.write(\"<b>d</b>\");</script>e</table>f",
    "<body><svg viewbox=\"0\"><foreignobject><p>a<script>document.write(\"<i>x</i>\");</script>b</svg><math><mi>c<script src=\"kept\"></script>d",
    "<body><template>a<script>document.write(\"n\");</script><b>b</template>c",
    "<body><textarea>a</textarea><style>b</style>c<script src=\"kept\"></script>d",
];
