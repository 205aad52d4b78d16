// What stands around the tables of a page.

pub const PAGE_HEAD: [u8; 653] =
    *b"<!DOCTYPE html>\n<html lang=en>\n<head>\n<meta charset=utf-8>\n<title>Handover sheet</title>\n<style>\n\
    @page { size: A4 landscape; margin: 12mm }\nbody { font: 9pt/1.3 sans-serif; color: black; background: white; margin: 0 }\n\
    @media screen { body { margin: 1em } }\nh1 { font-size: 14pt; margin: 0 0 6pt }\n\
    h2 { font-size: 10.5pt; margin: 10pt 0 3pt; break-after: avoid }\ntable { border-collapse: collapse }\n\
    th, td { border: 0.5pt solid gray; padding: 1pt 4pt; text-align: left; vertical-align: top }\nth { background: gainsboro }\n\
    .n { text-align: right; font-variant-numeric: tabular-nums; white-space: nowrap }\ntr { break-inside: avoid }\n</style>\n</head>\n\
    <body>\n";

pub const PAGE_FOOT: [u8; 16] = *b"</body>\n</html>\n";
