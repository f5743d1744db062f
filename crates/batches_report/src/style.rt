//! The fixed texts of the page.

/// From the beginning of the page to its first heading.
pub const HEAD: &str = "<!DOCTYPE html>
<html lang=\"en\">
<head>
<meta charset=\"utf-8\">
<meta name=\"viewport\" content=\"width=device-width\">
<title>Recorded batches</title>
<style>
:root { color-scheme: light dark; --ink: #1c2127; --soft: #56616c; --line: #d5dbe1; --bar: #2f6db5 }
@media (prefers-color-scheme: dark) {
  :root { --ink: #e6eaee; --soft: #9aa7b4; --line: #38424c; --bar: #6aa5e8; background: #14181c }
}
body { margin: 0; color: var(--ink); font: 1rem/1.5 system-ui, sans-serif }
main { max-width: 56rem; margin: 0 auto; padding: 1rem }
h1 { font-size: 1.6rem; margin: 0.5rem 0 }
h2 { font-size: 1.2rem; margin: 2rem 0 0.25rem }
p, .ends { margin: 0 0 0.5rem; color: var(--soft) }
.ends { display: flex; justify-content: space-between; font-size: 0.875rem }
table { width: 100%; border-collapse: collapse; font-variant-numeric: tabular-nums }
th, td { padding: 0.25rem 0.5rem; border-bottom: 1px solid var(--line) }
th, td { text-align: right; white-space: nowrap }
th:first-child, td:first-child { text-align: left }
code { white-space: normal; overflow-wrap: anywhere }
td.wide { width: 40% }
@media (max-width: 36rem) { td.wide { width: 20% } th, td { padding: 0.25rem } }
svg { display: block; width: 100%; height: 0.75rem }
svg.plot { height: 10rem; border-bottom: 1px solid var(--soft) }
rect { fill: var(--bar) }
</style>
</head>
<body>
<main>
<h1>Recorded batches</h1>
";

pub const END: &str = "</main>
</body>
</html>
";
