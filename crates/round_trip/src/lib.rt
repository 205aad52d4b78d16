// What `import` makes of what `export` writes, and the reverse: theorems alone, nothing here runs.
#![tactic(auto)]
